//! One rehearsal: a transfer, and the report of it.
ghost use Rattle.rehearse.specs.Asking.{Told};

use crate::fault::Fault;
use crate::field::FieldName;
use crate::report::{Fate, Tally, tell_block, tell_step, tell_tally};
use carriers::Sheet;
use denial::Denial;
use layout::{BASIC, BLOCKS, BlockName};
use receiver::Closed;
use sender::Sender;
use std::alloc::{AllocError, Global};
use transfer::{Step, transfer};

// The words of 625 lines.
const SHEET: usize = 900_000;

// Tells each step that was denied.
fn tell_steps(answers: &[Result<(), Denial>], text: &mut String) -> Result<(), AllocError> {
    for (step, answer) in answers.iter().enumerate() {
        if let Err(denial) = answer {
            tell_step(text, step, *denial)?;
        }
    }
    Ok(())
}

// What became of a block.
fn fate_of(receiver: &Closed, name: BlockName) -> Result<Fate, Denial>
    ensures { Told receiver.now.memory.now name.packet name.channel result }
{
    let mut place = [0u8; BASIC];
    receiver
        .ask(name.packet(), name.channel(), &mut place)
        .map(Fate::Given)
        .or_else(Fate::try_from)
}

// Asks for every block, and tells each that is not clean; then counts them.
fn tell_blocks(receiver: &Closed, text: &mut String) -> Result<(), Fault> {
    let mut tally = Tally::default();
    for name in (0..BLOCKS).filter_map(BlockName::at) {
        let fate = fate_of(receiver, name)?;
        tally.count(fate);
        tell_block(text, name, fate)?;
    }
    tell_tally(text, tally)?;
    Ok(())
}

/// Maps the sender's field through the window over a field, carries the steps out, and reports.
pub fn rehearse(
    alloc: Global,
    field: FieldName,
    sender: &Sender,
    steps: &[Step],
) -> Result<String, Fault> {
    let mut words = vec![in alloc; 0u16; SHEET]?;
    let mut gathered = vec![in alloc; 0u8; receiver::MEMORY]?;
    let mut answers = vec![in alloc; Ok(()); steps.len()]?;
    let mut window = field.window(Sheet {
        first: 1,
        words: words.as_mut_slice(),
    });
    let outcome = transfer(
        sender,
        &mut window,
        gathered.as_mut_slice(),
        steps,
        answers.as_mut_slice(),
    );
    outcome.mapped?;
    let mut text = String::new(alloc);
    tell_steps(answers.as_slice(), &mut text)?;
    tell_blocks(&outcome.receiver, &mut text)?;
    Ok(text)
}

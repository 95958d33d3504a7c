//! Answering for blocks.
ghost use Rattle.std.specs.Prelude.{◌≡◌, ◌≤◌, length, IfOk, MatchResult};
ghost use Rattle.receiver.specs.Asks.{ask_refusal, Asked, by_missing, checked, Given, missing_line, untaken};
ghost use Rattle.receiver.specs.Memory.{gathered};

use crate::memory::{MARKS, MEMORY};
use codec::MendRecord;
use codewords::{BLOCK, mend_block};
use denial::{Denial, Layer, Reason};
use layout::{BASIC, BlockName, whole};
use std::array;

// Whether a line was taken.
fn check_line(memory: &[u8; MEMORY], line: usize) -> Result<(), Denial>
    requires { line ≤ 211 }
    ensures { result ≡ checked (by_missing (untaken memory.now line)) }
{
    if memory[MARKS + line] == 0 {
        return Err(Denial::new(Reason::Missing, Layer::Field, line, 0));
    }
    Ok(())
}

// Whether every line of a block was taken.
fn check_lines(memory: &[u8; MEMORY], name: BlockName) -> Result<(), Denial>
    ensures { result ≡ checked (by_missing (missing_line memory.now name.packet name.channel)) }
{
    let (first, second) = name.lines();
    check_line(memory, first)?;
    match second {
        Some(line) => check_line(memory, line),
        None => Ok(()),
    }
}

// Reads the bytes of a block out of the memory.
fn gather(memory: &[u8; MEMORY], name: BlockName) -> [u8; BLOCK]
    ensures { result ≡ gathered memory.now name.packet name.channel }
{
    let start = name.start();
    array::from_fn(|j| memory[start + 2 * j])
}

// Mends a block that is all there, and writes its bytes.
fn give(
    memory: &[u8; MEMORY],
    name: BlockName,
    place: &mut [u8; BASIC],
) -> Result<MendRecord, Denial>
    ensures { Given (gathered memory.now name.packet name.channel) name.packet name.channel place.old place.new result }
{
    let mut block = gather(memory, name);
    let mends = mend_block(&mut block).map_err(|denial| denial.at(name.packet(), name.channel()))?;
    let (basic, _) = block.split_at(BASIC);
    place.copy_from_slice(basic);
    Ok(mends)
}

// Answers for a block.
pub(crate) fn ask_of(
    memory: &[u8],
    packet: usize,
    channel: usize,
    place: &mut [u8],
) -> Result<MendRecord, Denial>
    ensures { Asked memory.now packet channel place.old place.new result }
{
    let memory = whole::<MEMORY>(memory)?;
    let name = BlockName::new(packet, channel)?;
    let Some(place) = place.as_mut_array::<BASIC>() else {
        return Err(Denial::new(Reason::Length, Layer::Field, place.len(), 0));
    };
    check_lines(memory, name)?;
    give(memory, name, place)
}

//! Taking a line, or refusing it.
ghost use Rattle.std.specs.Prelude.{◌≡◌, ℕ, ◌≤◌, length, slice_index, IfOk, MatchResult};
ghost use Rattle.receiver.specs.Offers.{FaultsFound, offer_at, Offered, taken_byte};

use crate::lines::HeldLine;
use crate::memory::{MARKS, MEMORY};
use carriers::Carrier;
use denial::{Denial, Layer, Reason};
use layout::{LINE, LINES, received_byte};

// The line that is offered, where it may be taken.
fn check_offer<'c, C: Carrier>(
    memory: &[u8; MEMORY],
    carrier: &'c C,
    line: usize,
) -> Result<HeldLine<'c, C>, Denial>
    ensures answer { MatchResult result (λ _. offer_at memory.now (C.meaning carrier.now) line ≡ Ok tt) (λ denial. offer_at memory.now (C.meaning carrier.now) line ≡ Err denial) }
    ensures held { IfOk result (λ held. (held.carrier.now ≡ carrier.now) × (held.line ≡ line)) }
{
    if line >= LINES {
        return Err(Denial::new(Reason::Off, Layer::Field, line, 0));
    }
    if memory[MARKS + line] != 0 {
        return Err(Denial::new(Reason::Held, Layer::Field, line, 0));
    }
    let held = HeldLine::find(carrier, line)?;
    held.check()?;
    Ok(held)
}

// Writes a line's bytes and its mark.
fn take_line<C: Carrier>(memory: &mut [u8; MEMORY], held: &HeldLine<C>)
    ensures size { length memory.new ≡ length memory.old }
    ensures bytes { (i : ℕ) → slice_index memory.new i ≡ taken_byte memory.old ((C.meaning held.now.carrier.now).word held.now.line) held.now.line i }
{
    let start = LINE * held.line;
    for (j, byte) in memory[start..start + LINE].iter_mut().enumerate() {
        *byte = received_byte(held.word(2 + j));
    }
    memory[MARKS + held.line] = 1;
}

// Takes a line, where it may be taken.
pub(crate) fn offer_into<C: Carrier>(
    memory: &mut [u8],
    carrier: &C,
    line: usize,
) -> Result<(), Denial>
    ensures answer { result ≡ offer_at memory.old (C.meaning carrier.now) line }
    ensures after { Offered memory.old ((C.meaning carrier.now).word line) line memory.new result }
{
    // Not by `whole`: no clause can say what a slice holds at last that is lent on in a Result.
    let Some(memory) = memory.as_mut_array::<MEMORY>() else {
        return Err(Denial::new(Reason::Memory, Layer::Field, memory.len(), 0));
    };
    let held = check_offer(memory, carrier, line)?;
    take_line(memory, &held);
    Ok(())
}

/// A line is refused for its words exactly where they are not sound.
pub fn faults_found() -> u8
    ensures { FaultsFound }
{
    0
}

//! A whole transfer, and what is promised of it.
ghost use Rattle.std.specs.Prelude.{◌≡◌};
ghost use Rattle.sender.specs.Mapping.{map_at};
ghost use Rattle.transfer.specs.Kept.{Transferred};

use crate::steps::{Step, gather};
use carriers::{Carrier, WritableCarrier};
use denial::Denial;
use receiver::{Closed, Gathering};
use sender::Sender;

/// What became of a transfer. Not a `Result`, which would lose the lent memory where mapping is refused.
#[derive(Drop)]
pub struct Outcome<'m> {
    /// The answer to mapping. Where it was refused, no step was carried out.
    pub mapped: Result<(), Denial>,
    /// The receiver, closed.
    pub receiver: Closed<'m>,
}

/// Maps a sender's field onto the carrier, begins a receiver in the lent memory, carries every step out and closes. The answers to the steps are
/// noted, as many as there is room for. Of each block, whenever it is asked for, what is promised holds.
pub fn transfer<'m, C: WritableCarrier>(
    sender: &Sender,
    carrier: &mut C,
    memory: &'m mut [u8],
    steps: &[Step],
    answers: &mut [Result<(), Denial>],
) -> Outcome<'m>
    ensures mapped { result.mapped ≡ map_at sender.now.memory.now (C.Carrier.meaning carrier.old) }
    ensures done { Transferred sender.now.memory.now (C.Carrier.meaning carrier.old) (C.Carrier.meaning carrier.new) steps.now memory.old result.receiver.memory.now answers.old answers.new result.mapped }
    ensures beside { C.WritableCarrier.rest carrier.new ≡ C.WritableCarrier.rest carrier.old }
    ensures same { result.receiver.memory.ghost_name ≡ memory.entry.ghost_name }
{
    match sender.map(carrier) {
        Ok(()) => Outcome {
            mapped: Ok(()),
            receiver: gather(carrier, memory, steps, answers),
        },
        Err(denial) => Outcome {
            mapped: Err(denial),
            receiver: Gathering::begin(memory).close(),
        },
    }
}

//! What is looked for before a field is written.
ghost use Rattle.std.specs.Prelude.{◌≡◌, Some, None, MatchOption};
ghost use Rattle.layout.specs.Places.{ordinal_of};
ghost use Rattle.sender.specs.Mapping.{absent, unloaded};

use crate::memory::{MARKS, MEMORY};
use carriers::Carrier;
use layout::{BlockName, LINES};

// The first block in the order of the stream that is not loaded.
pub(crate) fn first_unloaded(memory: &[u8; MEMORY]) -> Option<BlockName>
    ensures { MatchOption result (unloaded memory.now ≡ None) (λ name. unloaded memory.now ≡ Some (ordinal_of name.packet name.channel)) }
{
    let ordinal = memory[MARKS..].iter().position(|mark| *mark == 0)?;
    BlockName::at(ordinal)
}

// The first line of a field that the carrier lacks.
pub(crate) fn first_absent<C: Carrier>(carrier: &C) -> Option<usize>
    ensures { result ≡ absent (C.meaning carrier.now) }
{
    (0..LINES).find(|line| carrier.read(*line, 0).is_err())
}

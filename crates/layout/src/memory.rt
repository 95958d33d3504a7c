//! Lent memory whose last bytes are marks.
ghost use Rattle.std.specs.Prelude.{◌≡◌, ◌≢◌, cond, length, ◌==◌, MatchResult};
ghost use Rattle.layout.specs.Cleared.{cleared, unfit};

use denial::{Denial, Layer, Reason};

/// Sets every byte from a place on to 0.
pub fn clear(memory: &mut [u8], from: usize)
    ensures { memory.new ≡ cleared memory.old from }
{
    if from < memory.len() {
        memory[from..].fill(0);
    }
}

/// Sets every mark to 0 in memory of that length, whose marks begin at that place. Memory of another length is left as it is.
pub fn clear_marks<const LENGTH: usize, const MARKS: usize>(memory: &mut [u8])
    ensures { memory.new ≡ cond (length memory.old == LENGTH) (cleared memory.old MARKS) memory.old }
{
    if memory.len() == LENGTH {
        clear(memory, MARKS);
    }
}

/// The memory by its length; refused with `memory` where it has another.
pub fn whole<const LENGTH: usize>(memory: &[u8]) -> Result<&[u8; LENGTH], Denial>
    ensures { MatchResult result (λ all. (length memory.now ≡ LENGTH) × (all.now ≡ memory.now)) (λ denial. (length memory.now ≢ LENGTH) × (denial ≡ unfit memory.now)) }
{
    memory.try_into().map_err(|_| Denial::new(Reason::Memory, Layer::Field, memory.len(), 0))
}

//! A carrier that is lent to be changed is a carrier.
// Not one impl over `Deref`: its contract gives no value that stands behind, of which a meaning could be said.
ghost use Rattle.std.specs.Prelude.{ℕ};

use crate::carrier::{Carrier, WritableCarrier};
use denial::Denial;

impl<'a, C: Carrier> Carrier for &'a mut C {
    ghost meaning = { λ s. C.Carrier.meaning s.now };

    fn read(&self, line: usize, word: usize) -> Result<u16, Denial> {
        (**self).read(line, word)
    }
}

impl<'a, C: WritableCarrier> WritableCarrier for &'a mut C {
    ghost Rest = { ℕ × C.WritableCarrier.Rest };

    ghost rest = { λ s. (s.ghost_name, C.WritableCarrier.rest s.now) };

    fn write(&mut self, line: usize, word: usize, value: u16) -> Result<(), Denial> {
        (**self).write(line, word, value)
    }
}

//! A carrier that is lent to be read is a carrier to read.
// Not one impl over `Deref`: its contract gives no value that stands behind, of which a meaning could be said.
use crate::carrier::Carrier;
use denial::Denial;

impl<'a, C: Carrier> Carrier for &'a C {
    ghost meaning = { λ s. C.Carrier.meaning s.now };

    fn read(&self, line: usize, word: usize) -> Result<u16, Denial> {
        (**self).read(line, word)
    }
}

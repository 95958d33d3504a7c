//! A strip: ten-bit words packed into lent memory.
#![tactic(auto)]

mod packed;

ghost use Rattle.std.specs.Prelude.{ℕ, List, length};
ghost use Rattle.carriers.specs.Runs.{behind};
ghost use Rattle.strip.specs.Packed.{strip, StripFits};

use crate::packed::{set_word, word_at};
use carriers::{Carrier, WritableCarrier, place_for, place_in};
use denial::Denial;

/// A run of bytes, 1800 to a line of 1440 ten-bit words, from the line `first` on. Bit i of a line's word w is bit 10w + i of the
/// line, and bit k of a line is bit k mod 8 of its byte k div 8.
#[derive(Drop)]
pub struct Strip<'a> {
    pub first: usize,
    pub bytes: &'a mut [u8],
}

/// Bytes to a line.
const LINE: usize = 1800;

impl<'a> Carrier for Strip<'a> {
    ghost meaning = { λ s. strip s.first s.bytes.now };

    fn read(&self, line: usize, word: usize) -> Result<u16, Denial> {
        let place = place_in(self.first, self.bytes.len() / LINE, line, word)?;
        Ok(word_at(self.bytes, place))
    }
}

impl<'a> WritableCarrier for Strip<'a> {
    ghost Rest = { ℕ × ℕ × ℕ × List ℕ };

    ghost rest = { λ s. (s.first, s.bytes.ghost_name, length s.bytes.now, behind 1800 s.first s.bytes.now) };

    fn write(&mut self, line: usize, word: usize, value: u16) -> Result<(), Denial> {
        let place = place_for(self.first, self.bytes.len() / LINE, line, word, value)?;
        set_word(self.bytes, place, value);
        Ok(())
    }
}

/// Which places a strip has, and which bits stand there.
pub fn strip_fits() -> u8
    ensures { StripFits }
{
    0
}

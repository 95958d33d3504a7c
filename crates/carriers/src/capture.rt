//! A capture: a sheet that can only be read.
ghost use Rattle.carriers.specs.Runs.{sheet};

use crate::carrier::Carrier;
use crate::run::{LINE, place_in};
use denial::Denial;

/// A shared run of sixteen-bit numbers, 1440 to a line, from the line `first` on.
#[derive(Clone, Copy)]
pub struct Capture<'a> {
    pub first: usize,
    pub words: &'a [u16],
}

impl<'a> Carrier for Capture<'a> {
    ghost meaning = { λ s. sheet s.first s.words.now };

    fn read(&self, line: usize, word: usize) -> Result<u16, Denial> {
        let place = place_in(self.first, self.words.len() / LINE, line, word)?;
        Ok(self.words[place])
    }
}

//! A sheet: sixteen-bit numbers in lent memory.
ghost use Rattle.std.specs.Prelude.{ℕ, List, length};
ghost use Rattle.carriers.specs.Runs.{behind, sheet, SheetFits};

use crate::capture::Capture;
use crate::carrier::{Carrier, WritableCarrier};
use crate::run::{LINE, place_for};
use denial::Denial;

/// A run of sixteen-bit numbers, 1440 to a line, from the line `first` on.
#[derive(Drop)]
pub struct Sheet<'a> {
    pub first: usize,
    pub words: &'a mut [u16],
}

impl<'a> Carrier for Sheet<'a> {
    ghost meaning = { λ s. sheet s.first s.words.now };

    fn read(&self, line: usize, word: usize) -> Result<u16, Denial> {
        let capture = Capture {
            first: self.first,
            words: self.words,
        };
        capture.read(line, word)
    }
}

impl<'a> WritableCarrier for Sheet<'a> {
    ghost Rest = { ℕ × ℕ × ℕ × List ℕ };

    ghost rest = { λ s. (s.first, s.words.ghost_name, length s.words.now, behind 1440 s.first s.words.now) };

    #[tactic(auto, using(crate::proofs::Meanings::sheet_written))]
    fn write(&mut self, line: usize, word: usize, value: u16) -> Result<(), Denial> {
        let place = place_for(self.first, self.words.len() / LINE, line, word, value)?;
        self.words[place] = value;
        Ok(())
    }
}

/// Which places a sheet has.
pub fn sheet_fits() -> u8
    ensures { SheetFits }
{
    0
}

//! A window: the 212 lines of one field, seen in a carrier that holds a whole frame.
ghost use Rattle.std.specs.Prelude.{◌≡◌, ℕ, ◌+◌, ◌&&◌, if◌then◌else◌, Ok, Err, nat_le};
ghost use Rattle.carriers.specs.Meaning.{lacking, Meaning};
ghost use Rattle.carriers.specs.Rates.{beside, is_field, seen, start_of, WindowFits};

use crate::carrier::{Carrier, WritableCarrier};
use crate::rates::field_start;
use denial::{Denial, Layer, Reason};

/// The lines of a field of a rate, numbered from 0, in the carrier below.
#[derive(Drop)]
pub struct Window<C> {
    pub rate: usize,
    pub field: usize,
    pub below: C,
}

/// The last line of a field.
const LAST_LINE: usize = 211;

impl<C> Window<C> {
    // The line below that is the window's; `word` is only for the refusal.
    fn line_below(&self, line: usize, word: usize) -> Result<usize, Denial>
        ensures { result ≡ (if is_field self.now.rate self.now.field && nat_le line 211 then Ok (start_of self.now.rate self.now.field + line) else Err (lacking line word)) }
    {
        match field_start(self.rate, self.field) {
            Some(start) if line <= LAST_LINE => Ok(start + line),
            _ => Err(Denial::new(Reason::Off, Layer::Carrier, line, word)),
        }
    }
}

impl<C: Carrier> Carrier for Window<C> {
    ghost meaning = { λ s. seen s.rate s.field (C.Carrier.meaning s.below) };

    fn read(&self, line: usize, word: usize) -> Result<u16, Denial> {
        let below = self.line_below(line, word)?;
        self.below
            .read(below, word)
            .map_err(|denial| denial.at(line, word))
    }
}

impl<C: WritableCarrier> WritableCarrier for Window<C> {
    ghost Rest = { ℕ × ℕ × Meaning × C.WritableCarrier.Rest };

    ghost rest = { λ s. (s.rate, s.field, beside s.rate s.field (C.Carrier.meaning s.below), C.WritableCarrier.rest s.below) };

    fn write(&mut self, line: usize, word: usize, value: u16) -> Result<(), Denial> {
        let below = self.line_below(line, word)?;
        self.below
            .write(below, word, value)
            .map_err(|refusal| refusal.at(line, word))
    }
}

/// Which places a window has, and what stands there.
pub fn window_fits() -> u8
    ensures { WindowFits }
{
    0
}

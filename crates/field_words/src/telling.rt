//! What a carrier holds, in text.
ghost use Rattle.std.specs.Prelude.{◌≤◌};

use crate::fault::Fault;
use crate::sums::{Sums, WORDS};
use carriers::Carrier;
use layout::LINES;
use std::io::Write;

/// Lines of a frame, the first of which is line 1.
pub const FRAME: usize = 625;

// The lines that are told word by word: the first, one where a packet runs on, one that a packet begins, the last.
const FULL_LINES: [usize; 4] = [0, 3, 112, 211];

// Words to a printed row.
const ROW: usize = 24;

fn tell_row<C: Carrier, W: Write>(
    carrier: &C,
    line: usize,
    start: usize,
    output: &mut W,
) -> Result<(), Fault>
    requires { start ≤ 1416 }
{
    for word in start..start + ROW {
        if word > start {
            write!(output, " ")?;
        }
        let number = carrier.read(line, word)?;
        write!(output, "{number:03x}")?;
    }
    writeln!(output, "")?;
    Ok(())
}

/// Where a carrier's words are told, and its name there.
#[derive(Drop)]
pub struct Telling<'t, W> {
    pub name: &'t str,
    pub output: &'t mut W,
}

impl<'t, W: Write> Telling<'t, W> {
    /// The sums of each line of a field.
    pub fn lines<C: Carrier>(&mut self, carrier: &C) -> Result<(), Fault> {
        let name = self.name;
        for line in 0..LINES {
            let sums = Sums::new().with_line(carrier, line)?;
            writeln!(self.output, "{name} {line} {sums}")?;
        }
        Ok(())
    }

    /// Every word of four lines.
    pub fn in_full<C: Carrier>(&mut self, carrier: &C) -> Result<(), Fault> {
        let name = self.name;
        for line in FULL_LINES {
            writeln!(self.output, "{name} {line} words")?;
            // By rows, since a proof is not told how far the steps of `step_by` go.
            for row in 0..WORDS / ROW {
                tell_row(carrier, line, row * ROW, self.output)?;
            }
        }
        Ok(())
    }

    /// The sums of a whole frame, and of its lines that no field from `start` on covers.
    pub fn frame<C: Carrier>(&mut self, frame: &C, start: usize) -> Result<(), Fault> {
        let name = self.name;
        let mut whole = Sums::new();
        let mut outside = Sums::new();
        for line in 1..=FRAME {
            whole = whole.with_line(frame, line)?;
            if line < start || line - start >= LINES {
                outside = outside.with_line(frame, line)?;
            }
        }
        writeln!(self.output, "{name} frame {whole}")?;
        writeln!(self.output, "{name} outside {outside}")?;
        Ok(())
    }
}

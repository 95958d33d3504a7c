//! Lines that stand one after the other in memory.
ghost use Rattle.std.specs.Prelude.{◌≡◌, ◌&&◌, if◌then◌else◌, Ok, Err, nat_le, nat_lt};
ghost use Rattle.carriers.specs.Meaning.{lacking};
ghost use Rattle.carriers.specs.Runs.{end_of, place_in, placed_for};

use denial::{Denial, Layer, Reason};

/// The highest line that counts.
const LAST_LINE: usize = 625;

/// Words to a line.
pub(crate) const LINE: usize = 1440;

/// The highest number that can be written.
const LAST_VALUE: u16 = 1023;

/// Which word of the run is a word of a line, where the run has so many whole lines.
// `first` and `lines` stay numbers, here and below: each carrier has the one and counts the other from its memory when it is asked.
pub fn place_in(first: usize, lines: usize, line: usize, word: usize) -> Result<usize, Denial>
    ensures { result ≡ (if nat_le first line && (nat_lt line (end_of first lines) && nat_lt word 1440) then Ok (place_in first line word) else Err (lacking line word)) }
{
    if line < first || line > LAST_LINE || line - first >= lines || word >= LINE {
        return Err(Denial::new(Reason::Off, Layer::Carrier, line, word));
    }
    Ok((line - first) * LINE + word)
}

/// The same for a write: a place that the run lacks is refused before a value above ten bits is.
pub fn place_for(
    first: usize,
    lines: usize,
    line: usize,
    word: usize,
    value: u16,
) -> Result<usize, Denial>
    ensures { result ≡ placed_for first lines line word value }
{
    let place = place_in(first, lines, line, word)?;
    if value > LAST_VALUE {
        return Err(Denial::new(Reason::Wide, Layer::Carrier, line, word));
    }
    Ok(place)
}

//! What the owner of memory learns of it once a carrier over it is let go.
ghost use Rattle.std.specs.Prelude.{◌≡◌};
ghost use Rattle.carriers.specs.Meaning.{write_at, written};
ghost use Rattle.carriers.specs.Rates.{beside, seen};
ghost use Rattle.carriers.specs.Runs.{behind, sheet};

use crate::refusals::off;
use carriers::{Carrier, Sheet, Window, WritableCarrier};
use denial::Denial;

// A write through a window over a loan of the frame.
fn write_in_field<C: WritableCarrier>(
    frame: &mut C,
    rate: usize,
    field: usize,
    line: usize,
    word: usize,
    value: u16,
) -> Result<(), Denial>
    ensures answer { result ≡ write_at (seen rate field (C.Carrier.meaning frame.old)) line word value }
    ensures shown { seen rate field (C.Carrier.meaning frame.new) ≡ written (seen rate field (C.Carrier.meaning frame.old)) line word value }
    ensures hidden { beside rate field (C.Carrier.meaning frame.new) ≡ beside rate field (C.Carrier.meaning frame.old) }
    ensures rest { C.WritableCarrier.rest frame.new ≡ C.WritableCarrier.rest frame.old }
{
    let mut window = Window {
        rate,
        field,
        below: frame,
    };
    window.write(line, word, value)
}

// A write into lent memory.
fn write_in_memory(
    first: usize,
    words: &mut [u16],
    line: usize,
    word: usize,
    value: u16,
) -> Result<(), Denial>
    ensures answer { result ≡ write_at (sheet first words.old) line word value }
    ensures lines { sheet first words.new ≡ written (sheet first words.old) line word value }
    ensures tail { behind 1440 first words.new ≡ behind 1440 first words.old }
{
    let mut sheet = Sheet { first, words };
    sheet.write(line, word, value)
}

#[test]
fn a_field_in_memory(rt: HostRuntime) {
    let mut words = [4; 4330];
    let mut frame = Sheet {
        first: 270,
        words: &mut words,
    };
    assert_eq!(rt; write_in_field(&mut frame, 1, 0, 211, 0, 8), Ok(()));
    assert_eq!(rt;
        write_in_field(&mut frame, 1, 0, 212, 0, 8),
        Err(off(212, 0))
    );
    assert_eq!(rt; write_in_memory(270, &mut words, 272, 1439, 9), Ok(()));
    let mut expected = [4; 4330];
    expected[0] = 8;
    expected[4319] = 9;
    assert_eq!(rt; words, expected);
}

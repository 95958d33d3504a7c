//! A carrier that this crate makes, and a call that serves every carrier.
ghost use Rattle.std.specs.Prelude.{◌≡◌, ℕ, slice_index};
ghost use Rattle.carriers.specs.Meaning.{written};
ghost use Rattle.carriers.specs.Runs.{run};
ghost use Rattle.carrier_values.specs.Echo.{echoed};

use crate::refusals::{off, wide};
use carriers::{Carrier, Sheet, Window, WritableCarrier, place_for, place_in};
use denial::Denial;
use strip::Strip;

// One line, with words of its own.
#[derive(Drop)]
struct OneLine {
    line: usize,
    words: [u16; 1440],
}

impl Carrier for OneLine {
    ghost meaning = { λ s. run s.line 1 (λ k. slice_index s.words k) };

    fn read(&self, line: usize, word: usize) -> Result<u16, Denial> {
        let place = place_in(self.line, 1, line, word)?;
        Ok(self.words[place])
    }
}

impl WritableCarrier for OneLine {
    ghost Rest = { ℕ };

    ghost rest = { λ s. s.line };

    fn write(&mut self, line: usize, word: usize, value: u16) -> Result<(), Denial> {
        let place = place_for(self.line, 1, line, word, value)?;
        self.words[place] = value;
        Ok(())
    }
}

// Writes a value and reads it back.
fn echo<C: WritableCarrier>(
    carrier: &mut C,
    line: usize,
    word: usize,
    value: u16,
) -> Result<u16, Denial>
    ensures answer { result ≡ echoed (C.Carrier.meaning carrier.old) line word value }
    ensures after { C.Carrier.meaning carrier.new ≡ written (C.Carrier.meaning carrier.old) line word value }
    ensures beside { C.WritableCarrier.rest carrier.new ≡ C.WritableCarrier.rest carrier.old }
{
    carrier.write(line, word, value)?;
    carrier.read(line, word)
}

#[test]
fn at_a_carrier_of_this_crate(rt: HostRuntime) {
    let mut one = OneLine {
        line: 50,
        words: [0; 1440],
    };
    assert_eq!(rt; echo(&mut one, 50, 1439, 1023), Ok(1023));
    assert_eq!(rt; echo(&mut one, 50, 1439, 1024), Err(wide(50, 1439)));
    assert_eq!(rt; echo(&mut one, 51, 0, 1), Err(off(51, 0)));
    assert_eq!(rt; one.words[1439], 1023);
    let mut window = Window {
        rate: 3,
        field: 0,
        below: &mut one,
    };
    assert_eq!(rt; echo(&mut window, 0, 0, 5), Ok(5));
    assert_eq!(rt; echo(&mut window, 1, 0, 5), Err(off(1, 0)));
    assert_eq!(rt; one.words[0], 5);
}

#[test]
fn at_a_sheet_and_a_strip(rt: HostRuntime) {
    let mut words = [0; 1440];
    let mut sheet = Sheet {
        first: 625,
        words: &mut words,
    };
    assert_eq!(rt; echo(&mut sheet, 625, 3, 0x248), Ok(0x248));
    assert_eq!(rt; echo(&mut sheet, 626, 3, 0x248), Err(off(626, 3)));
    let mut bytes = [0; 1800];
    let mut strip = Strip {
        first: 625,
        bytes: &mut bytes,
    };
    assert_eq!(rt; echo(&mut strip, 625, 3, 0x248), Ok(0x248));
    assert_eq!(rt; echo(&mut strip, 625, 3, 0x400), Err(wide(625, 3)));
    assert_eq!(rt; bytes[4], 0x92);
}

#[test]
fn at_a_window_over_a_loan(rt: HostRuntime) {
    let mut words = [0; 2880];
    let mut sheet = Sheet {
        first: 313,
        words: &mut words,
    };
    let mut window = Window {
        rate: 0,
        field: 1,
        below: &mut sheet,
    };
    assert_eq!(rt; echo(&mut window, 1, 7, 0x1fd), Ok(0x1fd));
    assert_eq!(rt; echo(&mut window, 1, 7, 0x7fd), Err(wide(1, 7)));
    assert_eq!(rt; echo(&mut window, 2, 7, 0x1fd), Err(off(2, 7)));
    assert_eq!(rt; sheet.read(314, 7), Ok(0x1fd));
}

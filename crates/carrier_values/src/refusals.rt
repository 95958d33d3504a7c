//! The refusals of carriers that the tests expect.
use denial::{Denial, Layer, Reason};

/// A place that the carrier lacks.
pub fn off(line: usize, word: usize) -> Denial {
    Denial::new(Reason::Off, Layer::Carrier, line, word)
}

/// A value above ten bits.
pub fn wide(line: usize, word: usize) -> Denial {
    Denial::new(Reason::Wide, Layer::Carrier, line, word)
}

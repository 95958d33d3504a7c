//! A checksum that the order of the words changes.
ghost use Rattle.std.specs.Prelude.{◌≡◌, ◌+◌, ◌%◌, ◌<◌};

use carriers::Carrier;
use denial::Denial;
use std::fmt;

const MODULUS: u32 = 65521;

/// Words to a line.
pub const WORDS: usize = 1440;

/// Two running sums: of the words, and of the first sum after each word.
#[derive(Clone, Copy)]
pub struct Sums {
    first: u32,
    second: u32,
    ghost small: { (first < 65521) × (second < 65521) },
}

impl Sums {
    pub fn new() -> Sums
        ensures { (result.first ≡ 1) × (result.second ≡ 0) }
    {
        Sums {
            first: 1,
            second: 0,
        }
    }

    fn with_word(self, word: u16) -> Sums
        ensures first { result.first ≡ (self.first + word) % 65521 }
        ensures second { result.second ≡ (self.second + result.first) % 65521 }
    {
        let first = (self.first + u32::from(word)) % MODULUS;
        let second = (self.second + first) % MODULUS;
        Sums { first, second }
    }

    /// Goes on over the words of a line.
    pub fn with_line<C: Carrier>(self, carrier: &C, line: usize) -> Result<Sums, Denial> {
        let mut sums = self;
        for word in 0..WORDS {
            sums = sums.with_word(carrier.read(line, word)?);
        }
        Ok(sums)
    }
}

impl fmt::Display for Sums {
    fn fmt<W: fmt::Write>(&self, f: &mut fmt::Formatter<W>) -> fmt::Result {
        let first = self.first;
        let second = self.second;
        write!(f, "{first} {second}")
    }
}

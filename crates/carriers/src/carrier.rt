//! A carrier holds lines of 1440 words, whatever it is made of.
ghost use Rattle.std.specs.Prelude.{◌≡◌};
ghost use Rattle.carriers.specs.Meaning.{Meaning, read_at, write_at, written};

use denial::Denial;

/// What can be read by line and word.
pub trait Carrier {
    ghost meaning: { Self → Meaning };

    /// The number at a place.
    fn read(&self, line: usize, word: usize) -> Result<u16, Denial>
        ensures { result ≡ read_at (meaning self.now) line word };
}

/// What can be written too.
// Each call that writes says by a clause `beside` that `rest` stays: that is a promise of the call, and no fact of a value.
pub trait WritableCarrier: Carrier {
    // What no write changes. Each carrier here says by it all that its meaning does not tell, as the memory behind its lines.
    ghost Rest: { Type 0 };

    ghost rest: { Self → Rest };

    /// Sets the number at a place.
    fn write(&mut self, line: usize, word: usize, value: u16) -> Result<(), Denial>
        ensures answer { result ≡ write_at (Self.Carrier.meaning self.old) line word value }
        ensures after { Self.Carrier.meaning self.new ≡ written (Self.Carrier.meaning self.old) line word value }
        ensures beside { rest self.new ≡ rest self.old };
}

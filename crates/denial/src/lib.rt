//! Why a call was refused.
#![tactic(auto)]

ghost use Rattle.std.specs.Prelude.{◌≡◌, Some};
ghost use Rattle.denial.specs.Denials.{number_of, word_of, layer_word_of, denied, shown_of};

use std::error::Error;
use std::fmt;

/// What was wrong, in the order of the numbers.
#[derive(Clone, Copy, PartialEq, Eq, Debug)]
pub enum Reason {
    Memory,
    Off,
    Wide,
    Type,
    Empty,
    Mark,
    Held,
    Number,
    Length,
    Loaded,
    Unfilled,
    Short,
    Missing,
    Lost,
}

/// Which layer refused.
#[derive(Clone, Copy, PartialEq, Eq, Debug)]
pub enum Layer {
    Carrier,
    Line,
    Field,
    Code,
}

/// A refusal: why, by which layer, and where.
#[derive(Clone, Copy, PartialEq, Eq, Debug)]
pub struct Denial {
    pub reason: Reason,
    pub layer: Layer,
    /// Two numbers; the second is 0 where one tells the place.
    pub place: (usize, usize),
}

impl Reason {
    /// The reason's number.
    pub fn number(self) -> u8
        ensures { result ≡ number_of self }
    {
        // A cast counts from 0.
        self as u8 + 1
    }

    /// The reason's name in lower case.
    // No `Display` beside: only a whole refusal is printed.
    pub fn word(self) -> &'static str
        ensures { result.now ≡ word_of self }
    {
        match self {
            Reason::Memory => "memory",
            Reason::Off => "off",
            Reason::Wide => "wide",
            Reason::Type => "type",
            Reason::Empty => "empty",
            Reason::Mark => "mark",
            Reason::Held => "held",
            Reason::Number => "number",
            Reason::Length => "length",
            Reason::Loaded => "loaded",
            Reason::Unfilled => "unfilled",
            Reason::Short => "short",
            Reason::Missing => "missing",
            Reason::Lost => "lost",
        }
    }
}

impl Layer {
    /// The layer's name in lower case.
    // No `Display` beside, as of a reason.
    pub fn word(self) -> &'static str
        ensures { result.now ≡ layer_word_of self }
    {
        match self {
            Layer::Carrier => "carrier",
            Layer::Line => "line",
            Layer::Field => "field",
            Layer::Code => "code",
        }
    }
}

impl Denial {
    pub fn new(reason: Reason, layer: Layer, first: usize, second: usize) -> Denial
        ensures { result ≡ denied reason layer first second }
    {
        Denial {
            reason,
            layer,
            place: (first, second),
        }
    }

    /// The same refusal, told of another place.
    pub fn at(self, first: usize, second: usize) -> Denial
        ensures { result ≡ denied self.reason self.layer first second }
    {
        Denial::new(self.reason, self.layer, first, second)
    }
}

/// The number, the word, the layer and the place, as `9 length code 5 0`.
impl fmt::Display for Denial {
    ghost output = { λ d. Some (shown_of d) };

    fn fmt<W: fmt::Write>(&self, f: &mut fmt::Formatter<W>) -> fmt::Result {
        let number = self.reason.number();
        let word = self.reason.word();
        let layer = self.layer.word();
        let (first, second) = self.place;
        write!(f, "{number} {word} {layer} {first} {second}")
    }
}

impl Error for Denial {}

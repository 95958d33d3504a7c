//! The kinds of cases.
use crate::fault::Fault;
use std::fmt;
use std::str::FromStr;

#[derive(Clone, Copy, PartialEq, Eq, Debug)]
pub enum Kind {
    Checks,
    Label,
    Block,
    Digits,
}

impl Kind {
    pub const ALL: [Kind; 4] = [Kind::Checks, Kind::Label, Kind::Block, Kind::Digits];

    // The first word of a case of the kind.
    fn word(self) -> &'static str {
        match self {
            Kind::Checks => "checks",
            Kind::Label => "label",
            Kind::Block => "block",
            Kind::Digits => "digits",
        }
    }
}

impl fmt::Display for Kind {
    fn fmt<W: fmt::Write>(&self, f: &mut fmt::Formatter<W>) -> fmt::Result {
        f.write_str(self.word())
    }
}

impl FromStr for Kind {
    type Err = Fault;

    fn from_str(text: &str) -> Result<Kind, Fault> {
        Kind::ALL
            .into_iter()
            .find(|kind| kind.word() == text)
            .ok_or(Fault::Malformed)
    }
}

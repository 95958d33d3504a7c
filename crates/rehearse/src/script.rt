//! The script: a command to a line.
ghost use Rattle.std.specs.Prelude.{◌≡◌};
ghost use Rattle.rehearse.specs.Numbers.{narrow, number_of};
ghost use Rattle.rehearse.specs.Script.{write_of};

use crate::numbers::{number, number16};
use thiserror::Error;
use transfer::Step;

/// What is wrong with a line.
#[derive(Clone, Copy, Debug, Error)]
pub enum Wrong {
    #[error("not a command")]
    Command,
    #[error("not a number")]
    Number,
    #[error("a number that does not fit")]
    Range,
}

/// What a line asks for.
#[derive(Clone, Copy)]
pub enum Command {
    /// Nothing: it is blank or a remark.
    Pass,
    One(Step),
    /// An offer of every line of the field in turn.
    OfferAll,
}

// `write LINE WORD VALUE`
fn write_of(line: &str, word: &str, value: &str) -> Result<Command, Wrong>
    ensures { result ≡ write_of (number_of line.now) (number_of word.now) (narrow (number_of value.now)) }
{
    Ok(Command::One(Step::Write {
        line: number(line.as_bytes())?,
        word: number(word.as_bytes())?,
        value: number16(value.as_bytes())?,
    }))
}

// `offer LINE` and `offer all`
fn offer_of(line: &str) -> Result<Command, Wrong> {
    if line == "all" {
        return Ok(Command::OfferAll);
    }
    Ok(Command::One(Step::Offer {
        line: number(line.as_bytes())?,
    }))
}

// The command that the words of a line make.
fn parse_words(text: &str) -> Result<Command, Wrong> {
    let mut words = text.split_ascii_whitespace();
    match (
        words.next(),
        words.next(),
        words.next(),
        words.next(),
        words.next(),
    ) {
        (None, _, _, _, _) => Ok(Command::Pass),
        (Some("offer"), Some(line), None, _, _) => offer_of(line),
        (Some("write"), Some(line), Some(word), Some(value), None) => write_of(line, word, value),
        _ => Err(Wrong::Command),
    }
}

/// The command of a line.
pub fn parse_line(line: &[u8]) -> Result<Command, Wrong> {
    if let [b'#', ..] = line {
        return Ok(Command::Pass);
    }
    let text = std::str::from_utf8(line).map_err(|_| Wrong::Command)?;
    parse_words(text)
}

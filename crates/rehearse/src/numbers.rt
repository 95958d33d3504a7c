//! Numbers of the script: decimal, or hexadecimal after `0x`.
ghost use Rattle.std.specs.Prelude.{◌≡◌, ◌+◌, ◌*◌};
ghost use Rattle.rehearse.specs.Numbers.{appended, digit_of, fitting, narrow, number_in, number_of};

use crate::script::Wrong;

// What a character counts as a digit.
fn digit(character: u8) -> Option<u8>
    ensures { result ≡ digit_of character }
{
    match character {
        b'0'..=b'9' => Some(character - b'0'),
        b'a'..=b'f' => Some(character - b'a' + 10),
        b'A'..=b'F' => Some(character - b'A' + 10),
        _ => None,
    }
}

// A number with one more digit behind it.
fn with_digit(base: u8, number: usize, digit: u8) -> Result<usize, Wrong>
    ensures { result ≡ fitting (number * base + digit) }
{
    number
        .checked_mul(usize::from(base))
        .and_then(|shifted| shifted.checked_add(usize::from(digit)))
        .ok_or(Wrong::Range)
}

// The same with a character, where there was no fault before it.
fn append(base: u8, before: Result<usize, Wrong>, character: u8) -> Result<usize, Wrong>
    ensures { result ≡ appended base before character }
{
    let number = before?;
    match digit(character) {
        Some(digit) if digit < base => with_digit(base, number, digit),
        _ => Err(Wrong::Number),
    }
}

// The number that is written with these digits.
fn number_in(base: u8, digits: &[u8]) -> Result<usize, Wrong>
    ensures { result ≡ number_in base digits.now }
{
    if digits.is_empty() {
        return Err(Wrong::Number);
    }
    digits.iter().fold(Ok(0), |number, character| append(base, number, *character))
}

/// A number that a word writes.
pub fn number(word: &[u8]) -> Result<usize, Wrong>
    ensures { result ≡ number_of word.now }
{
    match word {
        [b'0', b'x', digits @ ..] => number_in(16, digits),
        _ => number_in(10, word),
    }
}

/// The same in sixteen bits.
pub fn number16(word: &[u8]) -> Result<u16, Wrong>
    ensures { result ≡ narrow (number_of word.now) }
{
    u16::try_from(number(word)?).map_err(|_| Wrong::Range)
}

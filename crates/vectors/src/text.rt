//! The fields of a line.
use crate::fault::Fault;

// The text before and after the first space.
pub fn cut(text: &str) -> Result<(&str, &str), Fault> {
    text.split_once(' ').ok_or(Fault::Malformed)
}

// By hand: the library's `to_digit` takes capitals too.
fn digit(character: u8) -> Result<u8, Fault> {
    match character {
        b'0'..=b'9' => Ok(character - b'0'),
        b'a'..=b'f' => Ok(character - b'a' + 10),
        _ => Err(Fault::Malformed),
    }
}

// Reads one hexadecimal digit for each number.
pub fn read_digits<const N: usize>(text: &str) -> Result<[u8; N], Fault> {
    let characters = text.as_bytes();
    if characters.len() != N {
        return Err(Fault::Malformed);
    }
    let mut digits = [0; N];
    for (value, character) in digits.iter_mut().zip(characters) {
        *value = digit(*character)?;
    }
    Ok(digits)
}

// Reads two hexadecimal digits for each byte.
pub fn read_bytes<const N: usize>(text: &str) -> Result<[u8; N], Fault> {
    let (pairs, rest) = text.as_bytes().as_chunks::<2>();
    if pairs.len() != N || !rest.is_empty() {
        return Err(Fault::Malformed);
    }
    let mut bytes = [0; N];
    for (byte, [high, low]) in bytes.iter_mut().zip(pairs) {
        *byte = digit(*high)? << 4 | digit(*low)?;
    }
    Ok(bytes)
}

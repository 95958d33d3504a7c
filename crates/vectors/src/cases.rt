//! The four kinds of cases, and how the library is held to each.
use crate::fault::Fault;
use crate::kind::Kind;
use crate::text::{cut, read_bytes, read_digits};
use crate::verdict::{afterwards, fits_change, read_verdict, verdict_of};
use codec::{MendRecord, check_symbols};
use codewords::{BLOCK, Verdict, make_label, mend_block, mend_label, verdict_line};
use denial::Denial;
use galois::{Field, Gf256};
use std::alloc::{AllocError, Global};

// How many bytes of a block are data.
const BLOCK_DATA: usize = 220;

// How many digits a label has, and how many of them are data.
const LABEL: usize = 15;

const LABEL_DATA: usize = 11;

// The check bytes that the library gives the data.
fn check_bytes(data: &[u8; BLOCK_DATA]) -> Option<[u8; 4]> {
    let mut symbols = [Gf256::zero(); BLOCK_DATA];
    for (symbol, byte) in symbols.iter_mut().zip(data) {
        *symbol = Gf256::from_number(*byte)?;
    }
    Some(check_symbols(&symbols)?.numbers())
}

// `DATA CHECKS`
fn checks_agree(fields: &str) -> Result<bool, Fault> {
    let (data, checks) = cut(fields)?;
    let bytes = read_bytes(data)?;
    let expected = read_bytes(checks)?;
    Ok(check_bytes(&bytes) == Some(expected))
}

// `DATA LABEL`
fn label_agrees(fields: &str) -> Result<bool, Fault> {
    let (data, coded) = cut(fields)?;
    let digits: [u8; LABEL_DATA] = read_digits(data)?;
    let expected = read_digits(coded)?;
    let mut label = [0; LABEL];
    Ok(make_label(&digits, &mut label).is_ok() && label == expected)
}

// Whether a word is mended as it should be, in its own bytes, and stays as it is under a second call.
fn mends<const N: usize, M: Fn(&mut [u8]) -> Result<MendRecord, Denial>>(
    word: &[u8; N],
    expected: Verdict,
    mend: M,
) -> bool
    requires { M.IsAlwaysCallable mend }
{
    let mut bytes = *word;
    let told = verdict_of(mend(&mut bytes));
    let mended = bytes;
    let again = verdict_of(mend(&mut bytes));
    told == Some(expected)
        && fits_change(expected, word, &mended)
        && again == Some(afterwards(expected))
        && bytes == mended
}

// Whether the line of a block says the verdict after its ordinal.
fn line_tells(
    alloc: Global,
    ordinal: u64,
    block: &[u8; BLOCK],
    verdict: &str,
) -> Result<bool, AllocError> {
    let line = verdict_line(alloc, ordinal, block)?;
    let expected = format!(in alloc; "{ordinal} {verdict}\n")?;
    Ok(line == expected)
}

// `BYTES VERDICT`
fn block_agrees(alloc: Global, number: u64, fields: &str) -> Result<bool, Fault> {
    let (bytes, verdict) = cut(fields)?;
    let block = read_bytes(bytes)?;
    let expected = read_verdict(verdict)?;
    let told = line_tells(alloc, number, &block, verdict)?;
    Ok(told && mends(&block, expected, |bytes| mend_block(bytes)))
}

// `DIGITS VERDICT`
fn digits_agree(fields: &str) -> Result<bool, Fault> {
    let (digits, verdict) = cut(fields)?;
    let label: [u8; LABEL] = read_digits(digits)?;
    Ok(mends(&label, read_verdict(verdict)?, |digits| mend_label(digits)))
}

/// The kind of the case that a line states, where the library agrees.
pub fn case_agrees(alloc: Global, number: u64, line: &str) -> Result<Kind, Fault> {
    let (word, fields) = cut(line)?;
    let kind = word.parse::<Kind>()?;
    let agrees = match kind {
        Kind::Checks => checks_agree(fields)?,
        Kind::Label => label_agrees(fields)?,
        Kind::Block => block_agrees(alloc, number, fields)?,
        Kind::Digits => digits_agree(fields)?,
    };
    if agrees {
        Ok(kind)
    } else {
        Err(Fault::Disagrees(kind))
    }
}

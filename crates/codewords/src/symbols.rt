//! Bytes as the symbols of a field.
ghost use Rattle.std.specs.Prelude.{◌≡◌, ◌+◌, ◌≤◌, ◌++◌, map, length};
ghost use Rattle.codec.specs.Check.{symbols};
ghost use Rattle.codewords.specs.Bytes.{MadeBytes, MendedBytes, MendedBytesOneWay, Refused};
ghost use Rattle.codewords.specs.Symbols.{ReadAs};
ghost use Rattle.denial.specs.Denials.{denied};
ghost use Rattle.denial.specs.declared.Reason.TheVariants.{Length};
ghost use Rattle.denial.specs.declared.Layer.TheVariants.{Code};

use codec::{MendRecord, check_symbols, mend};
use denial::{Denial, Layer, Reason};
use galois::{Cubic, Field};

// How many check symbols a coded word ends with.
const CHECKS: usize = 4;

// Reads each byte as the symbol of that number; refused at the first that is no number of a symbol.
fn read_symbols<F: Field>(bytes: &[u8], word: &mut [F]) -> Result<(), Denial>
    requires { length word.old ≡ length bytes.now }
    ensures { ReadAs F.field bytes.now word.new result }
{
    // By index, since a proof learns nothing of what is written through a zipped `iter_mut`.
    for (i, byte) in bytes.iter().enumerate() {
        word[i] = F::from_number(*byte).ok_or(Denial::new(Reason::Wide, Layer::Code, 0, i))?;
    }
    Ok(())
}

// Writes the number of each symbol.
fn write_numbers<F: Field>(word: &[F], bytes: &mut [u8])
    requires { length word.now ≡ length bytes.old }
    ensures { bytes.new ≡ map F.field.number word.now }
{
    // By index, as above.
    for (i, symbol) in word.iter().enumerate() {
        bytes[i] = symbol.number();
    }
}

// Mends the word that the bytes are the numbers of, and writes it back. `word` has a place for each symbol of a coded word.
pub(crate) fn mend_bytes<F: Field>(bytes: &mut [u8], word: &mut [F]) -> Result<MendRecord, Denial>
    requires long { 5 ≤ length word.old }
    requires short { length word.old ≤ F.field.order }
    ensures { MendedBytes F.field (length word.old) bytes.old bytes.new result }
{
    if bytes.len() != word.len() {
        return Err(Denial::new(Reason::Length, Layer::Code, bytes.len(), 0));
    }
    read_symbols(bytes, word)?;
    let mends = mend(word).ok_or(Denial::new(Reason::Lost, Layer::Code, 0, 0))?;
    write_numbers(word, bytes);
    Ok(mends)
}

// Writes `source` and then the numbers of the check symbols.
fn write_coded<F: Field>(source: &[u8], checks: Cubic<F>, coded: &mut [u8])
    requires { length coded.old ≡ length source.now + 4 }
    ensures { coded.new ≡ source.now ++ map F.field.number (symbols checks) }
{
    let (front, back) = coded.split_at_mut(source.len());
    front.copy_from_slice(source);
    back.copy_from_slice(&checks.numbers());
}

// Codes the symbols that `source` has the numbers of into `coded`. `word` has a place for each data symbol. Refused, not a byte there
// is written: `length` for another length of `source`, then of `coded`, then `wide` for a byte that is no number of a symbol.
pub(crate) fn make_bytes<F: Field>(
    source: &[u8],
    word: &mut [F],
    coded: &mut [u8],
) -> Result<(), Denial>
    requires long { 1 ≤ length word.old }
    requires short { length word.old + 4 ≤ F.field.order }
    ensures wrong_length { ¬ (length source.now ≡ length word.old) → Refused coded.old coded.new result (denied Length Code (length source.now) 0) }
    ensures wrong_place { length source.now ≡ length word.old → ¬ (length coded.old ≡ length source.now + 4) →
        Refused coded.old coded.new result (denied Length Code (length coded.old) 0) }
    ensures made { length source.now ≡ length word.old → length coded.old ≡ length source.now + 4 → MadeBytes F.field source.now coded.old coded.new result }
{
    if source.len() != word.len() {
        return Err(Denial::new(Reason::Length, Layer::Code, source.len(), 0));
    }
    if coded.len() != source.len() + CHECKS {
        return Err(Denial::new(Reason::Length, Layer::Code, coded.len(), 0));
    }
    read_symbols(source, word)?;
    let checks = check_symbols(word).unwrap();
    write_coded(source, checks, coded);
    Ok(())
}

/// What mending leaves in the bytes, and answers, is fixed by the bytes alone.
pub fn mended_bytes_one_way<T>() -> u8
    ensures { MendedBytesOneWay T }
{
    0
}

//! Verdicts on blocks, and their lines.
ghost use Rattle.std.specs.Prelude.{◌≡◌, Some, IfOk, string_bytes};
ghost use Rattle.codewords.specs.Verdicts.{Judged, JudgedOneWay, Lines, LinesJoin, Tells, by_places, verdict_words};
ghost use Rattle.codec.specs.Mend.{places};

use crate::block::{BLOCK, mend_block};
use codec::MendRecord;
use std::alloc::{AllocError, Global};
use std::fmt;

/// What became of a block.
// Its first three cases are those of a mend record, spelt out, so that anyone can match on a verdict.
#[derive(Clone, Copy, PartialEq, Eq, Debug)]
pub enum Verdict {
    /// It was coded.
    Clean,
    /// The byte at this place was mended.
    MendedOne(u8),
    /// The bytes at these places were mended.
    MendedTwo(u8, u8),
    /// No coded block differs in at most two bytes.
    Lost,
    /// It has only so many bytes.
    Short(usize),
}

impl From<MendRecord> for Verdict {
    ghost from_gives = { λ mends verdict. verdict ≡ by_places (places mends) };

    fn from(mends: MendRecord) -> Verdict {
        match mends.count() {
            0 => Verdict::Clean,
            1 => Verdict::MendedOne(mends.first()),
            _ => Verdict::MendedTwo(mends.first(), mends.second()),
        }
    }
}

// The fields of a line after the ordinal.
impl fmt::Display for Verdict {
    ghost output = { λ verdict. Some (verdict_words verdict) };

    fn fmt<W: fmt::Write>(&self, f: &mut fmt::Formatter<W>) -> fmt::Result {
        match self {
            Verdict::Clean => write!(f, "clean"),
            Verdict::MendedOne(place) => write!(f, "mended {place}"),
            Verdict::MendedTwo(first, second) => write!(f, "mended {first} {second}"),
            Verdict::Lost => write!(f, "lost"),
            Verdict::Short(bytes) => write!(f, "short {bytes}"),
        }
    }
}

/// The verdict on a block, which is left as it is.
pub fn judge(block: &[u8]) -> Verdict
    ensures { Judged block.now result }
{
    let Ok(mut copy) = <[u8; BLOCK]>::try_from(block) else {
        return Verdict::Short(block.len());
    };
    match mend_block(&mut copy) {
        Ok(mends) => mends.into(),
        Err(_) => Verdict::Lost,
    }
}

/// The line that tells the verdict on a block: its ordinal, the verdict and the places that were mended, with one space between
/// fields and byte 10 at the end.
pub fn verdict_line(alloc: Global, ordinal: u64, block: &[u8]) -> Result<String, AllocError>
    ensures { IfOk result (λ s. Tells ordinal block.now (string_bytes s)) }
{
    let verdict = judge(block);
    format!(in alloc; "{ordinal} {verdict}\n")
}

/// The lines of the blocks that the bytes are cut into, in their order, with ordinals from `first` on; bytes that are left at the end
/// have a line that says `short`.
pub fn verdict_lines(alloc: Global, first: u64, bytes: &[u8]) -> Result<String, AllocError>
    ensures { IfOk result (λ s. Lines first bytes.now (string_bytes s)) }
{
    let mut text = String::new(alloc);
    let mut ordinal = first;
    for block in bytes.chunks(BLOCK) {
        let line = verdict_line(alloc, ordinal, block)?;
        text.push_str(line.as_str())?;
        // By hand, since a range would end where ordinals wrap.
        ordinal = ordinal.wrapping_add(1);
    }
    Ok(text)
}

/// The lines of a stream are those of its pieces, where each piece but the last is of whole blocks.
pub fn lines_join() -> u8
    ensures { LinesJoin }
{
    0
}

/// There is one verdict on each run of bytes.
pub fn judged_one_way() -> u8
    ensures { JudgedOneWay }
{
    0
}

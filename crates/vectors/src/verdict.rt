//! What mending answers, as a case states it and as the library gives it.
use crate::fault::Fault;
use codec::MendRecord;
use codewords::Verdict;
use denial::{Denial, Reason};

fn place(text: &str) -> Result<u8, Fault> {
    text.parse::<u8>().or(Err(Fault::Malformed))
}

// A function and no `FromStr`, since the type is another crate's. Reads `clean`, `lost`, `mended P` or `mended P Q`.
pub fn read_verdict(text: &str) -> Result<Verdict, Fault> {
    match text {
        "clean" => Ok(Verdict::Clean),
        "lost" => Ok(Verdict::Lost),
        _ => {
            let places = text.strip_prefix("mended ").ok_or(Fault::Malformed)?;
            match places.split_once(' ') {
                None => Ok(Verdict::MendedOne(place(places)?)),
                Some((first, second)) => Ok(Verdict::MendedTwo(place(first)?, place(second)?)),
            }
        }
    }
}

// Whether each place that is not used is 255.
fn is_well_formed(mends: MendRecord) -> bool {
    matches!(
        (mends.count(), mends.first(), mends.second()),
        (0, 255, 255) | (1, _, 255) | (2, _, _)
    )
}

// The verdict that an answer stands for; none where the record is malformed or the call was refused for another reason.
pub fn verdict_of(answer: Result<MendRecord, Denial>) -> Option<Verdict> {
    match answer {
        Ok(mends) if is_well_formed(mends) => Some(mends.into()),
        Err(denial) if denial.reason == Reason::Lost => Some(Verdict::Lost),
        _ => None,
    }
}

// What a second call must answer.
pub fn afterwards(verdict: Verdict) -> Verdict {
    match verdict {
        Verdict::Lost => Verdict::Lost,
        _ => Verdict::Clean,
    }
}

// Whether mending alters the symbol at `place`.
fn alters(verdict: Verdict, place: usize) -> bool {
    match verdict {
        Verdict::MendedOne(only) => place == usize::from(only),
        Verdict::MendedTwo(first, second) => place == usize::from(first)
            || place == usize::from(second),
        _ => false,
    }
}

// Whether the symbols differ at the places of the verdict, and at no others.
pub fn fits_change<const N: usize>(verdict: Verdict, before: &[u8; N], after: &[u8; N]) -> bool {
    before.iter().zip(after).enumerate().all(|(place, (old, new))| (old != new)
        == alters(verdict, place))
}

//! Cassette labels: 15 digits over the field of 16 elements, a byte each.
ghost use Rattle.codewords.specs.Bytes.{MendedBytes};
ghost use Rattle.codewords.specs.Labels.{LabelMade};
ghost use Rattle.galois.specs.Fields.{gf16};

use crate::symbols::{make_bytes, mend_bytes};
use codec::MendRecord;
use denial::Denial;
use galois::{Field, Gf16};

// How many digits a label has, and how many of them are data.
const LABEL: usize = 15;

const DATA: usize = 11;

/// Mends a label in its own digits, and answers which were altered. Refused, not a digit is written: `length` for another length,
/// `wide` for a digit above 15, `lost` where no coded label differs in at most two digits.
pub fn mend_label(label: &mut [u8]) -> Result<MendRecord, Denial>
    ensures { MendedBytes gf16 15 label.old label.new result }
{
    mend_bytes(label, &mut [Gf16::zero(); LABEL])
}

/// Makes the label of eleven digits. Refused, not a digit is written: `length` for other than 11 digits, then for a place of other
/// than 15, `wide` for a digit above 15.
pub fn make_label(digits: &[u8], label: &mut [u8]) -> Result<(), Denial>
    ensures { LabelMade digits.now label.old label.new result }
{
    make_bytes(digits, &mut [Gf16::zero(); DATA], label)
}

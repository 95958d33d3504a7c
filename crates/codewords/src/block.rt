//! Coded blocks: 224 bytes over the field of 256 elements.
ghost use Rattle.codewords.specs.Blocks.{BlockMade, OneBlock};
ghost use Rattle.codewords.specs.Bytes.{MendedBytes};
ghost use Rattle.galois.specs.Fields.{gf256};

use crate::symbols::{make_bytes, mend_bytes};
use codec::MendRecord;
use denial::{Denial, Layer, Reason};
use galois::{Field, Gf256};

/// How many bytes a coded block has.
pub const BLOCK: usize = 224;

// How many of them are a basic block, and how many are data: the one after the basic block is reserved.
const BASIC: usize = 219;

const DATA: usize = 220;

/// Mends a coded block in its own bytes, and answers which were altered. Refused, not a byte is written: `length` for another
/// length, `lost` where no coded block differs in at most two bytes.
pub fn mend_block(block: &mut [u8]) -> Result<MendRecord, Denial>
    ensures { MendedBytes gf256 224 block.old block.new result }
{
    mend_bytes(block, &mut [Gf256::zero(); BLOCK])
}

/// Makes the coded block of a basic block: its 219 bytes, the reserved byte 0 and four check bytes. Refused, not a byte is
/// written: `length` for other than 219 bytes, then for a place of other than 224.
pub fn make_block(basic: &[u8], coded: &mut [u8]) -> Result<(), Denial>
    ensures { BlockMade basic.now coded.old coded.new result }
{
    // A test of its own, since what `make_bytes` measures has the reserved byte too.
    if basic.len() != BASIC {
        return Err(Denial::new(Reason::Length, Layer::Field, basic.len(), 0));
    }
    let mut data = [0; DATA];
    data[..BASIC].copy_from_slice(basic);
    make_bytes(&data, &mut [Gf256::zero(); DATA], coded)
}

/// Every basic block has a coded block, and no other.
pub fn one_block() -> u8
    ensures { OneBlock }
{
    0
}

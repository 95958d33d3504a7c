//! The blocks that are sent.
ghost use Rattle.std.specs.Prelude.{◌≡◌, take, Ok, Err};

use crate::fault::Fault;
use layout::{BASIC, BLOCKS, BlockName};
use samples::sample_block;
use sender::Sender;
use std::alloc::{AllocError, Global};

/// Blocks to stand in where no file gives them.
pub fn sample_blocks(alloc: Global) -> Result<Vec<u8>, AllocError> {
    let mut bytes = Vec::with_capacity(alloc, BLOCKS * BASIC)?;
    for name in (0..BLOCKS).filter_map(BlockName::at) {
        bytes.extend_from_slice(&sample_block(name))?;
    }
    Ok(bytes)
}

/// Loads blocks that stand in the order of the stream.
pub fn load_all(sender: &mut Sender, blocks: &[u8]) -> Result<(), Fault>
    ensures { elim result [ Ok _ ↦ take 296964 sender.new.memory.now ≡ blocks.now | Err _ ↦ Unit {0} ] }
{
    if blocks.len() != BLOCKS * BASIC {
        return Err(Fault::Length(blocks.len()));
    }
    let names = (0..BLOCKS).filter_map(BlockName::at);
    for (name, block) in names.zip(blocks.chunks_exact(BASIC)) {
        sender.load(name.packet(), name.channel(), block)?;
    }
    Ok(())
}

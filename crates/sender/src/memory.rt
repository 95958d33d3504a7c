//! The bytes that a sender works in.
ghost use Rattle.std.specs.Prelude.{◌≡◌};
ghost use Rattle.sender.specs.Memory.{after_load, load_at, LoadsStay, stored};

use denial::{Denial, Layer, Reason};
use layout::{BASIC, BLOCKS, BlockName};

// Where the marks begin: behind the blocks.
pub(crate) const MARKS: usize = BLOCKS * BASIC;

/// How many bytes a sender works in.
pub const MEMORY: usize = MARKS + BLOCKS;

// Writes a block and its mark.
fn store(memory: &mut [u8; MEMORY], name: BlockName, block: &[u8; BASIC])
    ensures { memory.new ≡ stored memory.old name.packet name.channel block.now }
{
    let index = name.ordinal();
    memory[BASIC * index..BASIC * index + BASIC].copy_from_slice(block);
    memory[MARKS + index] = 1;
}

// Loads a block, where it may be.
pub(crate) fn load_into(
    memory: &mut [u8],
    packet: usize,
    channel: usize,
    block: &[u8],
) -> Result<(), Denial>
    ensures answer { result ≡ load_at memory.old packet channel block.now }
    ensures after { memory.new ≡ after_load memory.old packet channel block.now result }
{
    // Not by a call like `whole`: no clause can say what a slice holds at last that is lent on in a Result.
    let Some(memory) = memory.as_mut_array::<MEMORY>() else {
        return Err(Denial::new(Reason::Memory, Layer::Field, memory.len(), 0));
    };
    let name = BlockName::new(packet, channel)?;
    let Some(block) = block.as_array::<BASIC>() else {
        return Err(Denial::new(Reason::Length, Layer::Field, block.len(), 0));
    };
    if memory[MARKS + name.ordinal()] != 0 {
        return Err(name.refused(Reason::Loaded));
    }
    store(memory, name, block);
    Ok(())
}

/// A block that is loaded is the one that stands there, and loading one touches no other.
pub fn loads_stay() -> u8
    ensures { LoadsStay }
{
    0
}

//! Blocks to send where no data are given.
#![tactic(auto)]

ghost use Rattle.std.specs.Prelude.{◌≡◌, ℕ, ◌+◌, ◌*◌, ◌%◌, ◌<◌, slice_index};

use layout::{BASIC, BlockName};
use std::array;

/// The block that stands in for one of a field. Each byte tells its packet, its channel and its place.
pub fn sample_block(name: BlockName) -> [u8; BASIC]
    ensures { (j : ℕ) → j < 219 → slice_index result j ≡ (31 * name.packet + 17 * name.channel + j) % 256 }
{
    array::from_fn(|j| ((31 * name.packet() + 17 * name.channel() + j) % 256) as u8)
}

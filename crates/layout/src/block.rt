//! The blocks of a field.
ghost use Rattle.std.specs.Prelude.{◌≡◌, ◌≤◌, true, false, MatchOption, MatchResult};
ghost use Rattle.denial.specs.Denials.{denied};
ghost use Rattle.denial.specs.declared.Layer.TheVariants.{Field};
ghost use Rattle.layout.specs.Places.{is_block, no_such, ordinal_of, stream_place};

use denial::{Denial, Layer, Reason};

/// How many packets a field has.
pub const PACKETS: usize = 678;

// How many channels there are: each packet has a block of each.
const CHANNELS: usize = 2;

/// Bytes to a packet.
pub const PACKET: usize = 448;

/// Bytes to a basic block.
pub const BASIC: usize = 219;

/// How many blocks a field has.
pub const BLOCKS: usize = CHANNELS * PACKETS;

/// A block that a field has: the packet that carries it, and the channel that it comes from.
#[derive(Clone, Copy, PartialEq, Eq, Debug)]
pub struct BlockName {
    packet: usize,
    channel: usize,
    ghost packets: { packet ≤ 677 },
    ghost channels: { channel ≤ 1 },
}

impl BlockName {
    /// Refused with `number` where no field has such a block.
    pub fn new(packet: usize, channel: usize) -> Result<BlockName, Denial>
        ensures { MatchResult result (λ name. (is_block packet channel ≡ true) × (name.packet ≡ packet) × (name.channel ≡ channel)) (λ denial. (is_block packet channel ≡ false) × (denial ≡ no_such packet channel)) }
    {
        if packet >= PACKETS || channel >= CHANNELS {
            return Err(Denial::new(Reason::Number, Layer::Field, packet, channel));
        }
        Ok(BlockName { packet, channel })
    }

    /// The block with so many before it in the stream; none past the last.
    pub fn at(ordinal: usize) -> Option<BlockName>
        ensures { MatchOption result (1356 ≤ ordinal) (λ name. ordinal_of name.packet name.channel ≡ ordinal) }
    {
        if ordinal >= BLOCKS {
            return None;
        }
        Some(BlockName {
            packet: ordinal / 2,
            channel: 1 - ordinal % 2,
        })
    }

    pub fn packet(self) -> usize
        ensures { result ≡ self.packet }
    {
        self.packet
    }

    pub fn channel(self) -> usize
        ensures { result ≡ self.channel }
    {
        self.channel
    }

    /// How many blocks stand before it in the stream.
    pub fn ordinal(self) -> usize
        ensures { result ≡ ordinal_of self.packet self.channel }
    {
        2 * self.packet + (1 - self.channel)
    }

    /// The place of its first byte in the stream.
    pub fn start(self) -> usize
        ensures { result ≡ stream_place self.packet self.channel 0 }
    {
        PACKET * self.packet + (1 - self.channel)
    }

    /// A refusal by the field that tells this block.
    pub fn refused(self, reason: Reason) -> Denial
        ensures { result ≡ denied reason Field self.packet self.channel }
    {
        Denial::new(reason, Layer::Field, self.packet, self.channel)
    }
}

//! A receiver gathers lines until it is closed; closed, it answers for blocks.
ghost use Rattle.std.specs.Prelude.{◌≡◌};
ghost use Rattle.receiver.specs.Asks.{Asked};
ghost use Rattle.receiver.specs.Memory.{begun};
ghost use Rattle.receiver.specs.Offers.{offer_at, Offered};

use crate::asks::ask_of;
use crate::memory::{MARKS, MEMORY};
use crate::offers::offer_into;
use carriers::Carrier;
use codec::MendRecord;
use denial::Denial;
use layout::clear_marks;

/// A receiver that takes lines. It works in 304,644 lent bytes; in memory of another length every offer is refused with `memory`.
#[derive(Drop)]
pub struct Gathering<'m> {
    memory: &'m mut [u8],
}

// A type of its own, so that an offer to a closed receiver and a question to one that still gathers do not compile.
/// A receiver that takes no more lines and answers for blocks.
#[derive(Drop)]
pub struct Closed<'m> {
    memory: &'m mut [u8],
}

// The clauses `same` say that it is still that memory, a promise of each call to whoever lent it.
impl<'m> Gathering<'m> {
    /// Begins with no line taken. Memory of another length is left as it is.
    pub fn begin(memory: &'m mut [u8]) -> Gathering<'m>
        ensures bytes { result.memory.now ≡ begun memory.old }
        ensures same { result.memory.ghost_name ≡ memory.entry.ghost_name }
    {
        clear_marks::<MEMORY, MARKS>(memory);
        Gathering { memory }
    }

    /// Takes a line of a carrier. It is taken whole or, refused, not a byte of the memory changes: `off` by the field above line 211, `held`
    /// where it was taken before, `off` by the carrier that lacks it, `wide`, `type`, `empty` and `mark` for its words.
    pub fn offer<C: Carrier>(&mut self, carrier: &C, line: usize) -> Result<(), Denial>
        ensures answer { result ≡ offer_at self.old.memory.now (C.meaning carrier.now) line }
        ensures after { Offered self.old.memory.now ((C.meaning carrier.now).word line) line self.new.memory.now result }
        ensures same { self.new.memory.ghost_name ≡ self.old.memory.ghost_name }
    {
        offer_into(self.memory, carrier, line)
    }

    /// Takes no more lines.
    pub fn close(self) -> Closed<'m>
        ensures bytes { result.memory.now ≡ self.entry.memory.now }
        ensures same { result.memory.ghost_name ≡ self.entry.memory.ghost_name }
    {
        Closed {
            memory: self.release(),
        }
    }

    /// Gives the memory back, with its bytes.
    pub fn release(self) -> &'m mut [u8]
        ensures bytes { result.now ≡ self.entry.memory.now }
        ensures same { result.ghost_name ≡ self.entry.memory.ghost_name }
    {
        let Gathering { memory } = self;
        memory
    }
}

impl<'m> Closed<'m> {
    /// Writes the basic block of a packet from a channel into the answer place, mended, and answers which bytes were altered. Refused, not a
    /// byte is written: `memory`, `number` where there is no such block, `length` for a place of other than 219 bytes, `missing` where a
    /// line of the block was not taken, told of the first, `lost` where no coded block differs from the gathered bytes in at most two.
    pub fn ask(&self, packet: usize, channel: usize, place: &mut [u8]) -> Result<MendRecord, Denial>
        ensures { Asked self.now.memory.now packet channel place.old place.new result }
    {
        ask_of(self.memory, packet, channel, place)
    }

    /// Gives the memory back, with its bytes.
    pub fn release(self) -> &'m mut [u8]
        ensures bytes { result.now ≡ self.entry.memory.now }
        ensures same { result.ghost_name ≡ self.entry.memory.ghost_name }
    {
        let Closed { memory } = self;
        memory
    }
}

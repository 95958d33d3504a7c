//! A sender holds the blocks of one field until they are mapped.
ghost use Rattle.std.specs.Prelude.{◌≡◌};
ghost use Rattle.sender.specs.Mapping.{map_at, MappedOnto};
ghost use Rattle.sender.specs.Memory.{after_load, begun, load_at};

use crate::mapping::map_onto;
use crate::memory::{MARKS, MEMORY, load_into};
use carriers::{Carrier, WritableCarrier};
use denial::Denial;
use layout::clear_marks;

/// It works in 298,320 lent bytes. In memory of another length every call but `release` is refused with `memory`.
#[derive(Drop)]
pub struct Sender<'m> {
    memory: &'m mut [u8],
}

// The clauses `same` say that it is still that memory, a promise of each call to whoever lent it.
impl<'m> Sender<'m> {
    /// Begins with no block loaded. Memory of another length is left as it is.
    pub fn begin(memory: &'m mut [u8]) -> Sender<'m>
        ensures bytes { result.memory.now ≡ begun memory.old }
        ensures same { result.memory.ghost_name ≡ memory.entry.ghost_name }
    {
        clear_marks::<MEMORY, MARKS>(memory);
        Sender { memory }
    }

    /// Loads the block of a packet from a channel. Refused, not a byte is written: `number` where there is no such block, `length` for other
    /// than 219 bytes, `loaded` where it was loaded before.
    pub fn load(&mut self, packet: usize, channel: usize, block: &[u8]) -> Result<(), Denial>
        ensures answer { result ≡ load_at self.old.memory.now packet channel block.now }
        ensures after { self.new.memory.now ≡ after_load self.old.memory.now packet channel block.now result }
        ensures same { self.new.memory.ghost_name ≡ self.old.memory.ghost_name }
    {
        load_into(self.memory, packet, channel, block)
    }

    /// Writes all 1440 words of lines 0 to 211 of the carrier, and changes nothing else. Refused, the carrier is as it was: `unfilled` where a
    /// block is not loaded, told of the first, `short` where the carrier lacks a line, told of the first.
    pub fn map<C: WritableCarrier>(&self, carrier: &mut C) -> Result<(), Denial>
        ensures answer { result ≡ map_at self.now.memory.now (C.Carrier.meaning carrier.old) }
        ensures after { MappedOnto self.now.memory.now (C.Carrier.meaning carrier.old) (C.Carrier.meaning carrier.new) result }
        ensures beside { C.WritableCarrier.rest carrier.new ≡ C.WritableCarrier.rest carrier.old }
    {
        map_onto(self.memory, carrier)
    }

    /// Gives the memory back, with its bytes.
    pub fn release(self) -> &'m mut [u8]
        ensures bytes { result.now ≡ self.entry.memory.now }
        ensures same { result.ghost_name ≡ self.entry.memory.ghost_name }
    {
        let Sender { memory } = self;
        memory
    }
}

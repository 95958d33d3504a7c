//! Mapping: the words of a whole field, on any carrier that can be written.
ghost use Rattle.std.specs.Prelude.{◌≡◌, ℕ, ◌+◌, ◌*◌, ◌<◌, ◌≤◌, List, take, drop};
ghost use Rattle.carriers.specs.Meaning.{Meaning};
ghost use Rattle.codewords.specs.Blocks.{BlockOf};
ghost use Rattle.layout.specs.Mapped.{Blocks};
ghost use Rattle.sender.specs.Mapping.{CodedBlocks, map_at, MappedOnto, with_field};
ghost use Rattle.sender.specs.Passes.{with_stream};

use crate::memory::MEMORY;
use crate::passes::FieldLines;
use crate::searches::{first_absent, first_unloaded};
use carriers::{Carrier, WritableCarrier};
use codewords::{BLOCK, make_block};
use denial::{Denial, Layer, Reason};
use layout::{BASIC, PACKETS, whole};

// Codes the block with so many before it in the stream. A number and no `BlockName`: the two of a packet are its double and one more.
fn coded_block(memory: &[u8; MEMORY], ordinal: usize) -> [u8; BLOCK]
    requires { ordinal < 1356 }
    ensures { (block : List ℕ) → BlockOf (take 219 (drop (219 * ordinal) memory.now)) block → block ≡ result }
{
    let mut coded = [0; BLOCK];
    make_block(
        &memory[BASIC * ordinal..BASIC * ordinal + BASIC],
        &mut coded,
    )
    .unwrap();
    coded
}

// Codes the two blocks of a packet and writes it behind those before it.
fn map_packet<C: WritableCarrier>(memory: &[u8; MEMORY], packet: usize, lines: &mut FieldLines<C>)
    requires { packet ≤ 677 }
    ensures after { (coded : Blocks) (m : Meaning) → CodedBlocks memory.now coded → C.Carrier.meaning lines.old.carrier ≡ with_stream coded (448 * packet) m → C.Carrier.meaning lines.new.carrier ≡ with_stream coded (448 * packet + 448) m }
    ensures beside { C.WritableCarrier.rest lines.new.carrier ≡ C.WritableCarrier.rest lines.old.carrier }
{
    let even = coded_block(memory, 2 * packet);
    let odd = coded_block(memory, 2 * packet + 1);
    lines.put_packet(packet, &even, &odd);
}

// Writes the whole stream.
fn map_stream<C: WritableCarrier>(memory: &[u8; MEMORY], lines: &mut FieldLines<C>)
    ensures after { (coded : Blocks) → CodedBlocks memory.now coded → C.Carrier.meaning lines.new.carrier ≡ with_stream coded 303744 (C.Carrier.meaning lines.old.carrier) }
    ensures beside { C.WritableCarrier.rest lines.new.carrier ≡ C.WritableCarrier.rest lines.old.carrier }
{
    for packet in 0..PACKETS {
        map_packet(memory, packet, lines);
    }
}

// Writes all words of a field.
fn map_field<C: WritableCarrier>(memory: &[u8; MEMORY], lines: &mut FieldLines<C>)
    ensures after { (coded : Blocks) → CodedBlocks memory.now coded → C.Carrier.meaning lines.new.carrier ≡ with_field coded (C.Carrier.meaning lines.old.carrier) }
    ensures beside { C.WritableCarrier.rest lines.new.carrier ≡ C.WritableCarrier.rest lines.old.carrier }
{
    map_stream(memory, lines);
    lines.put_all_edges();
    lines.put_filling();
}

// Maps the blocks of a sender's memory.
pub(crate) fn map_onto<C: WritableCarrier>(memory: &[u8], carrier: &mut C) -> Result<(), Denial>
    ensures answer { result ≡ map_at memory.now (C.Carrier.meaning carrier.old) }
    ensures after { MappedOnto memory.now (C.Carrier.meaning carrier.old) (C.Carrier.meaning carrier.new) result }
    ensures beside { C.WritableCarrier.rest carrier.new ≡ C.WritableCarrier.rest carrier.old }
{
    let memory = whole(memory)?;
    if let Some(name) = first_unloaded(memory) {
        return Err(name.refused(Reason::Unfilled));
    }
    if let Some(line) = first_absent(carrier) {
        return Err(Denial::new(Reason::Short, Layer::Field, line, 0));
    }
    let mut lines = FieldLines { carrier };
    map_field(memory, &mut lines);
    Ok(())
}

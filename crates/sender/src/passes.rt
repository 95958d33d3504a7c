//! Writing a field onto a carrier that has its lines: the stream, the edges of each line, the filling of the last.
ghost use Rattle.std.specs.Prelude.{◌≡◌, ◌+◌, ◌*◌, ◌/◌, ◌%◌, ◌<◌, ◌≤◌, length};
ghost use Rattle.carriers.specs.Meaning.{Meaning};
ghost use Rattle.layout.specs.Mapped.{Blocks};
ghost use Rattle.layout.specs.Words.{sent_word};
ghost use Rattle.sender.specs.Passes.{with_edges, with_filling, with_stream, with_word};

use carriers::{Carrier, WritableCarrier};
use codewords::BLOCK;
use layout::{FILLER, LINE, LINES, PACKET, TYPE_WORD, mark_word, sent_word};

/// A carrier that has the lines of a field.
// Lines, words and packets stay plain numbers here: each is the coordinate of one write, and a type for it would be made and taken apart at once.
#[derive(Drop)]
pub(crate) struct FieldLines<C: WritableCarrier> {
    pub(crate) carrier: C,
    ghost first: { (C.Carrier.meaning carrier).first ≡ 0 },
    ghost end: { 212 ≤ (C.Carrier.meaning carrier).end },
}

impl<C: WritableCarrier> FieldLines<C> {
    // Sets a word to a number of ten bits.
    fn put(&mut self, line: usize, word: usize, value: u16)
        requires line { line ≤ 211 }
        requires word { word ≤ 1439 }
        requires narrow { value ≤ 1023 }
        ensures after { C.Carrier.meaning self.new.carrier ≡ with_word line word value (C.Carrier.meaning self.old.carrier) }
        ensures beside { C.WritableCarrier.rest self.new.carrier ≡ C.WritableCarrier.rest self.old.carrier }
    {
        self.carrier.write(line, word, value).unwrap();
    }

    // Sets the word of a place of the stream.
    fn put_byte(&mut self, place: usize, byte: u8)
        requires place { place < 303744 }
        ensures after { C.Carrier.meaning self.new.carrier ≡ with_word (place / 1436) (2 + place % 1436) (sent_word byte) (C.Carrier.meaning self.old.carrier) }
        ensures beside { C.WritableCarrier.rest self.new.carrier ≡ C.WritableCarrier.rest self.old.carrier }
    {
        self.put(place / LINE, 2 + place % LINE, sent_word(byte));
    }

    /// Writes a packet behind those before it: its two coded blocks, a byte of each in turn, the even one's first.
    pub(crate) fn put_packet(&mut self, packet: usize, even: &[u8; BLOCK], odd: &[u8; BLOCK])
        requires packet { packet ≤ 677 }
        ensures after { (coded : Blocks) (m : Meaning) → coded packet 1 ≡ even.now → coded packet 0 ≡ odd.now → C.Carrier.meaning self.old.carrier ≡ with_stream coded (448 * packet) m → C.Carrier.meaning self.new.carrier ≡ with_stream coded (448 * packet + 448) m }
        ensures beside { C.WritableCarrier.rest self.new.carrier ≡ C.WritableCarrier.rest self.old.carrier }
    {
        for (j, (even_byte, odd_byte)) in even.iter().zip(odd).enumerate() {
            let place = PACKET * packet + 2 * j;
            self.put_byte(place, *even_byte);
            self.put_byte(place + 1, *odd_byte);
        }
    }

    // Writes the four words of a line that carry no stream.
    fn put_edges(&mut self, line: usize)
        requires line { line ≤ 211 }
        ensures after { (m : Meaning) → C.Carrier.meaning self.old.carrier ≡ with_edges line m → C.Carrier.meaning self.new.carrier ≡ with_edges (line + 1) m }
        ensures beside { C.WritableCarrier.rest self.new.carrier ≡ C.WritableCarrier.rest self.old.carrier }
    {
        self.put(line, 0, TYPE_WORD);
        self.put(line, 1, mark_word(line));
        self.put(line, LINE + 2, FILLER);
        self.put(line, LINE + 3, FILLER);
    }

    /// Writes those of every line.
    pub(crate) fn put_all_edges(&mut self)
        ensures after { C.Carrier.meaning self.new.carrier ≡ with_edges 212 (C.Carrier.meaning self.old.carrier) }
        ensures beside { C.WritableCarrier.rest self.new.carrier ≡ C.WritableCarrier.rest self.old.carrier }
    {
        for line in 0..LINES {
            self.put_edges(line);
        }
    }

    /// Fills the last line behind the last packet.
    pub(crate) fn put_filling(&mut self)
        ensures after { C.Carrier.meaning self.new.carrier ≡ with_filling 1438 (C.Carrier.meaning self.old.carrier) }
        ensures beside { C.WritableCarrier.rest self.new.carrier ≡ C.WritableCarrier.rest self.old.carrier }
    {
        for word in 750..LINE + 2 {
            self.put(LINES - 1, word, FILLER);
        }
    }
}

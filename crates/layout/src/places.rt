//! Where every coded byte stands in the lines of a field.
ghost use Rattle.std.specs.Prelude.{◌≡◌, IfOk};
ghost use Rattle.layout.specs.Places.{byte_line, Crosses, placed, QuestionsUndo, second, seconded, Stands, StreamCovered};

use crate::block::{BlockName, PACKET, PACKETS};
use denial::{Denial, Reason};

/// A byte of a coded block.
// Plain numbers and no `BlockName`: it is an answer to be read, and anyone may make one.
#[derive(Clone, Copy, PartialEq, Eq, Debug)]
pub struct CodedByte {
    pub packet: usize,
    pub channel: usize,
    pub byte: usize,
}

// The last byte of a block.
const LAST_BYTE: usize = 223;

/// How many lines a field has.
pub const LINES: usize = 212;

/// Stream bytes to a line.
pub const LINE: usize = 1436;

// The bytes of all packets.
const STREAM: usize = PACKETS * PACKET;

/// The line and word of a coded byte.
pub fn place_of(packet: usize, channel: usize, byte: usize) -> Result<(usize, usize), Denial>
    ensures { result ≡ placed packet channel byte }
{
    let name = BlockName::new(packet, channel)?;
    if byte > LAST_BYTE {
        return Err(name.refused(Reason::Number));
    }
    let q = name.start() + 2 * byte;
    Ok((q / LINE, 2 + q % LINE))
}

/// The coded byte that stands at a word of a line; none where no byte of a packet does.
pub fn coded_byte_at(line: usize, word: usize) -> Option<CodedByte>
    ensures { Stands line word result }
{
    if line >= LINES || word < 2 || word >= 2 + LINE {
        return None;
    }
    let q = LINE * line + (word - 2);
    if q >= STREAM {
        return None;
    }
    Some(CodedByte {
        packet: q / PACKET,
        channel: 1 - q % 2,
        byte: q % PACKET / 2,
    })
}

impl BlockName {
    /// The line of its first byte, and that of its last where this is another.
    pub fn lines(self) -> (usize, Option<usize>)
        ensures { result ≡ (byte_line self.packet self.channel 0, second self.packet self.channel) }
    {
        let start = self.start();
        let first = start / LINE;
        let last = (start + 2 * LAST_BYTE) / LINE;
        (first, if last == first { None } else { Some(last) })
    }
}

/// The second line on which a block stands; none where it ends on its first.
pub fn second_line(packet: usize, channel: usize) -> Result<Option<usize>, Denial>
    ensures answer { result ≡ seconded packet channel }
    ensures lines { IfOk result (λ o. Crosses packet channel o) }
{
    let (_, second) = BlockName::new(packet, channel)?.lines();
    Ok(second)
}

/// Each place of the stream is that of exactly one coded byte.
pub fn stream_covered() -> u8
    ensures { StreamCovered }
{
    0
}

/// What is said to stand at the place of a coded byte is that byte.
pub fn questions_undo() -> u8
    ensures { QuestionsUndo }
{
    0
}

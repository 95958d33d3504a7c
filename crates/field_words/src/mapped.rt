//! The field on each kind of carrier.
use crate::fault::Fault;
use crate::sums::WORDS;
use crate::telling::{FRAME, Telling};
use carriers::{Sheet, Window};
use layout::LINES;
use sender::Sender;
use std::alloc::Global;
use std::io::Write;
use strip::Strip;

// Bytes to a line of a strip.
const STRIP_LINE: usize = 1800;

// What every word holds before, and no word of a field.
const BEFORE: u16 = 5;

/// A field of a frame, and the line of the frame on which it begins.
#[derive(Clone, Copy)]
pub struct FrameField {
    pub name: &'static str,
    pub rate: usize,
    pub field: usize,
    pub start: usize,
}

// The allocator, the sender and the output of these three have nothing else in common.
pub fn on_sheet<W: Write>(alloc: Global, sender: &Sender<'_>, output: &mut W) -> Result<(), Fault> {
    let mut words = vec![in alloc; BEFORE; LINES * WORDS]?;
    let mut sheet = Sheet {
        first: 0,
        words: words.as_mut_slice(),
    };
    sender.map(&mut sheet)?;
    let mut telling = Telling {
        name: "sheet",
        output,
    };
    telling.lines(&sheet)?;
    telling.in_full(&sheet)
}

pub fn on_strip<W: Write>(alloc: Global, sender: &Sender<'_>, output: &mut W) -> Result<(), Fault> {
    let mut bytes = vec![in alloc; 5u8; LINES * STRIP_LINE]?;
    let mut strip = Strip {
        first: 0,
        bytes: bytes.as_mut_slice(),
    };
    sender.map(&mut strip)?;
    let mut telling = Telling {
        name: "strip",
        output,
    };
    telling.lines(&strip)
}

pub fn on_window<W: Write>(
    alloc: Global,
    place: FrameField,
    sender: &Sender<'_>,
    output: &mut W,
) -> Result<(), Fault> {
    let FrameField {
        name,
        rate,
        field,
        start,
    } = place;
    let mut words = vec![in alloc; BEFORE; FRAME * WORDS]?;
    let mut frame = Sheet {
        first: 1,
        words: words.as_mut_slice(),
    };
    let mut telling = Telling { name, output };
    {
        let mut window = Window {
            rate,
            field,
            below: &mut frame,
        };
        sender.map(&mut window)?;
        telling.lines(&window)?;
    }
    telling.frame(&frame, start)
}

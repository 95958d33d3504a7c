//! Maps one field onto each kind of carrier and tells what the carriers hold then.
#![tactic(auto)]

mod blocks;
mod fault;
mod mapped;
mod sums;
mod telling;

use blocks::load_all;
use fault::Fault;
use mapped::{FrameField, on_sheet, on_strip, on_window};
use sender::{MEMORY, Sender};
use std::io;
use std::io::{BufWriter, Write};

const FRAME_FIELDS: [FrameField; 2] = [
    FrameField {
        name: "window-0-0",
        rate: 0,
        field: 0,
        start: 50,
    },
    FrameField {
        name: "window-2-1",
        rate: 2,
        field: 1,
        start: 372,
    },
];

fn run(rt: &HostRuntime) -> Result<(), Fault> {
    let alloc = rt.alloc();
    let mut output = BufWriter::new(alloc, rt.stdout())?;
    let mut memory = vec![in alloc; 0u8; MEMORY]?;
    let mut sender = Sender::begin(memory.as_mut_slice());
    load_all(&mut sender)?;
    on_sheet(alloc, &sender, &mut output)?;
    on_strip(alloc, &sender, &mut output)?;
    for place in FRAME_FIELDS {
        on_window(alloc, place, &sender, &mut output)?;
    }
    output.flush()?;
    Ok(())
}

fn main(rt: HostRuntime) -> io::Result<()> {
    match run(&rt) {
        Ok(()) => Ok(()),
        Err(Fault::Denied(denial)) => println!(rt; "{denial}"),
        Err(Fault::Output(error)) => Err(error),
        Err(Fault::Memory(error)) => Err(error.into()),
    }
}

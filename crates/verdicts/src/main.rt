//! Tells the verdict on each block of standard input, a line to a block.
#![tactic(auto)]

ghost use Rattle.std.specs.Prelude.{◌≤◌, length, IfOk};

use codewords::{BLOCK, verdict_lines};
use std::alloc::Global;
use std::io;
use std::io::{BufWriter, ErrorKind, Read, Write};

// How many blocks are read at a time, and how many bytes these have.
const BLOCKS: usize = 64;

const PIECE: usize = BLOCKS * BLOCK;

// One read, made again where a signal interrupts it.
fn read_some<R: Read>(input: &mut R, buffer: &mut [u8]) -> io::Result<usize>
    ensures { IfOk result (λ n. n ≤ length buffer.old) }
{
    for _ in 0..u64::MAX {
        match input.read(buffer) {
            Err(e) if e.kind() == ErrorKind::Interrupted => {}
            answer => return answer,
        }
    }
    Err(ErrorKind::Interrupted.into())
}

// Reads until the buffer is full or the input ends, and answers how many bytes came. By hand, since no clause says that `read_to_end` under
// `take` gives no more than the limit, and the vector that it fills grows past a piece.
fn fill<R: Read>(input: &mut R, buffer: &mut [u8]) -> io::Result<usize>
    ensures { IfOk result (λ n. n ≤ length buffer.old) }
{
    let mut count = 0;
    while count < buffer.len() {
        let more = read_some(input, &mut buffer[count..])?;
        if more == 0 {
            break;
        }
        count += more;
    }
    Ok(count)
}

// Writes a line for each block of the input; only the last block may be short. Each piece but the last is of whole blocks.
fn tell_all<R: Read, W: Write>(alloc: Global, input: &mut R, output: &mut W) -> io::Result<()> {
    let mut piece = [0u8; PIECE];
    let mut ordinal = 0u64;
    for _ in 0..u64::MAX {
        let count = fill(input, &mut piece)?;
        let lines = verdict_lines(alloc, ordinal, &piece[0..count])?;
        output.write_all(lines.as_bytes())?;
        if count < PIECE {
            break;
        }
        // By hand, since a range would end where ordinals wrap.
        ordinal = ordinal.wrapping_add(BLOCKS as u64);
    }
    output.flush()
}

fn main(rt: HostRuntime) -> io::Result<()> {
    let mut input = rt.stdin();
    let mut output = BufWriter::new(rt.alloc(), rt.stdout())?;
    tell_all(rt.alloc(), &mut input, &mut output)
}

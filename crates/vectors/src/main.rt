//! Runs the library on the test vectors of standard input, a case to a line, and tells how many agree.
#![tactic(auto)]

mod cases;
mod fault;
mod kind;
mod text;
mod verdict;

use cases::case_agrees;
use fault::Fault;
use kind::Kind;
use std::io;
use std::io::{BufRead, BufReader};

// How many cases agree, of each kind in the order of `Kind::ALL`: an array, since four counters want no memory.
type Tally = [u64; Kind::ALL.len()];

// Runs the case of a line. One that disagrees is told, and so is a line that is no case.
fn run_line(rt: &HostRuntime, tally: &mut Tally, number: u64, line: &str) -> io::Result<()> {
    match case_agrees(rt.alloc(), number, line) {
        Ok(kind) => {
            let counter = &mut tally[kind as usize];
            *counter = counter.saturating_add(1);
            Ok(())
        }
        Err(Fault::Memory(error)) => Err(error.into()),
        Err(fault) => println!(rt; "line {number}: {fault}"),
    }
}

fn main(rt: HostRuntime) -> io::Result<()> {
    let mut tally = [0; Kind::ALL.len()];
    let input = BufReader::new(rt.alloc(), rt.stdin())?;
    for (number, line) in (1..).zip(input.lines(rt.alloc())) {
        run_line(&rt, &mut tally, number, line?.as_str())?;
    }
    for (kind, count) in Kind::ALL.iter().zip(&tally) {
        println!(rt; "{kind} {count} agree")?;
    }
    Ok(())
}

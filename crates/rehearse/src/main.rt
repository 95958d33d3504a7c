//! Lays a field out, carries out a script of damage and offers, and reports what became of every block.
#![tactic(auto)]

ghost use Rattle.std.specs.Prelude.{◌≡◌, ◌++◌, Ok, Err};
ghost use Rattle.rehearse.specs.Script.{all_offers, steps_of};

mod blocks;
mod fault;
mod field;
mod numbers;
mod rehearsal;
mod report;
mod script;

use blocks::{load_all, sample_blocks};
use fault::Fault;
use field::FieldName;
use layout::LINES;
use rehearsal::rehearse;
use script::{Command, parse_line};
use sender::Sender;
use std::alloc::{AllocError, Global};
use std::io::{BufRead, BufReader, Write};
use std::process::ExitCode;
use std::{env, fs};
use transfer::Step;

// Adds an offer of every line in turn.
fn add_offers(steps: &mut Vec<Step>) -> Result<(), AllocError>
    ensures { elim result [ Ok _ ↦ steps.new.items ≡ steps.old.items ++ all_offers | Err _ ↦ Unit {0} ] }
{
    steps.extend((0..LINES).map(|line| Step::Offer { line }))
}

// Adds the steps of a command.
fn add_steps(steps: &mut Vec<Step>, command: Command) -> Result<(), AllocError>
    ensures { elim result [ Ok _ ↦ steps.new.items ≡ steps.old.items ++ steps_of command | Err _ ↦ Unit {0} ] }
{
    match command {
        Command::Pass => Ok(()),
        Command::One(step) => Ok(steps.push(step)?),
        Command::OfferAll => add_offers(steps),
    }
}

// Reads the script to its end. All lines into one vector, since `split` makes one for each.
fn read_script<R: BufRead>(alloc: Global, input: &mut R) -> Result<Vec<Step>, Fault> {
    let mut steps = Vec::new(alloc);
    let mut line = Vec::new(alloc);
    for number in 1..u64::MAX {
        line.clear();
        if input.read_until(b'\n', &mut line)? == 0 {
            break;
        }
        let command = parse_line(line.as_slice()).map_err(|wrong| Fault::Script(number, wrong))?;
        add_steps(&mut steps, command)?;
    }
    Ok(steps)
}

// The blocks of the file, or those that stand in for them.
fn blocks_of(rt: &HostRuntime, path: Option<String>) -> Result<Vec<u8>, Fault> {
    let Some(path) = path else {
        return Ok(sample_blocks(rt.alloc())?);
    };
    fs::read(rt, path.as_str()).map_err(Fault::Unread)
}

fn run(rt: &HostRuntime) -> Result<(), Fault> {
    let mut words = env::args(rt)?.skip(1);
    let (Some(rate), Some(field), path, None) = (
        words.next(),
        words.next(),
        words.next(),
        words.next(),
    ) else {
        return Err(Fault::Usage);
    };
    let field = FieldName::read(rate.as_str(), field.as_str())?;
    let blocks = blocks_of(rt, path)?;
    let mut memory = vec![in rt.alloc(); 0u8; sender::MEMORY]?;
    let mut sender = Sender::begin(memory.as_mut_slice());
    load_all(&mut sender, blocks.as_slice())?;
    let steps = read_script(rt.alloc(), &mut BufReader::new(rt.alloc(), rt.stdin())?)?;
    let text = rehearse(rt.alloc(), field, &sender, steps.as_slice())?;
    rt.stdout().write_all(text.as_bytes())?;
    Ok(())
}

fn main(rt: HostRuntime) -> ExitCode {
    match run(&rt) {
        Ok(()) => ExitCode::SUCCESS,
        Err(fault) => {
            let _ = eprintln!(rt; "rehearse: {fault}");
            ExitCode::FAILURE
        }
    }
}

// Measures the office's work: settles the round of a file so many times, in memory, and prints the nanoseconds of each turn.
// A turn is everything from the bytes to the printed text and all letters. For bench/run, which compares it with a
// plain Rust program; in the gate it runs without arguments and prints its usage.
#![tactic(auto)]

use console::Failed;
use std::env;
use std::process::ExitCode;
use std::time::Instant;
use texts::Fault;

const USAGE: &str = "usage: stopwatch FILE TURNS

Settles the round in FILE so many times and prints `turn NANOSECONDS bytes LENGTH` for each turn: everything from the bytes
to the printed text and all letters, in memory.
";

// One turn, with the length of the text and of the first letter.
fn turn(rt: &HostRuntime, bytes: &[u8]) -> Result<usize, Failed> {
    match office::settle(rt.alloc(), bytes) {
        Ok(settled) => {
            let text = office::report(rt.alloc(), &settled)?;
            Ok(text.len().saturating_add(settled.letter(0).len()))
        }
        Err(Fault::Refused(_)) => Ok(0),
        Err(Fault::NoMemory) => Err(Failed::NoMemory),
    }
}

fn measure(rt: &HostRuntime, file: &str, turns: u32) -> Result<(), Failed> {
    let bytes = console::input(rt, file)?;
    for _ in 0..turns {
        let start = Instant::now(rt)?;
        let length = turn(rt, &bytes)?;
        let nanos = start.elapsed(rt)?.as_nanos();
        println!(rt; "turn {nanos} bytes {length}")?;
    }
    Ok(())
}

// What the arguments ask for.
fn run(rt: &HostRuntime) -> Result<(), Failed> {
    let args: Vec<String> = env::args(rt)?.skip(1).collect(rt.alloc())?;
    let [file, turns, ..] = args.as_slice() else {
        return Ok(print!(rt; "{USAGE}")?);
    };
    let turns = turns.parse::<u32>().map_err(|_| Failed::Usage(USAGE))?;
    measure(rt, file, turns)
}

fn main(rt: HostRuntime) -> ExitCode {
    console::end(&rt, run(&rt))
}

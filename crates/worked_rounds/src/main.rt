// Runs the rounds of several files one after the other: what `run_round` prints of each, and how many of its letters `check_letter`
// would accept. In the gate it runs the worked rounds, and what it prints is held to what was written down for them by hand.
#![tactic(auto)]

use console::Failed;
use office::Settled;
use std::alloc::Global;
use std::env;
use std::process::ExitCode;
use texts::Fault;

const USAGE: &str = "usage: worked_rounds FILE..

Prints for each FILE a line with its name, what run_round prints of the round in it, and how many of its letters check_letter
accepts. Of a round that is refused `refused NUMBER at PLACE` is printed, and the next one follows.
";

// How many letters of the round are accepted: a loop, since want of memory ends it.
fn accepted(heap: Global, settled: &Settled) -> Result<usize, Failed> {
    let mut number = 0usize;
    for a in 0..settled.applicants() {
        match texts::explain(heap, settled.letter(a)) {
            Ok(_) => number += 1,
            Err(Fault::Refused(_)) => {}
            Err(Fault::NoMemory) => return Err(Failed::NoMemory),
        }
    }
    Ok(number)
}

// The round of one file. A refusal is told as `run_round` tells it, and is no failure here: so a match, and no `?`.
fn show_round(rt: &HostRuntime, file: &str) -> Result<(), Failed> {
    let bytes = console::input(rt, file)?;
    println!(rt; "== {file}")?;
    let settled = match console::settle_and_tell(rt, &bytes) {
        Ok(settled) => settled,
        Err(Failed::Told) => return Ok(()),
        Err(e) => return Err(e),
    };
    let written = settled.applicants();
    let accepted = accepted(rt.alloc(), &settled)?;
    println!(rt; "letters {written} accepted {accepted}")?;
    Ok(())
}

// What the arguments ask for.
fn run(rt: &HostRuntime) -> Result<(), Failed> {
    let files: Vec<String> = env::args(rt)?.skip(1).collect(rt.alloc())?;
    match files.as_slice() {
        [] => Err(Failed::Usage(USAGE)),
        [flag, ..] if console::is_help(flag) => Ok(print!(rt; "{USAGE}")?),
        files => {
            for file in files {
                show_round(rt, file)?;
            }
            Ok(())
        }
    }
}

fn main(rt: HostRuntime) -> ExitCode {
    console::end(&rt, run(&rt))
}

// The program that checks one letter alone: it needs nothing but the letter. What it prints is made and proved in the crate
// `texts`; here are only arguments, files and printing.
#![tactic(auto)]

use console::Failed;
use std::env;
use std::process::ExitCode;
use texts::Fault;

const USAGE: &str = "usage: check_letter [FILE]

Reads a letter from FILE, or from standard input where no FILE is named or FILE is -. Prints it in words: each wish with the
applicant's own points there, the workshop's cut, and whether the cut is reached; then what was got, and `accepted` as the
last line. A letter that is malformed, or whose place is not the first whose cut is reached, prints `refused NUMBER at PLACE`
alone, and the status is 1.
";

// The letter in words, or why it is refused.
fn check_one(rt: &HostRuntime, file: &str) -> Result<(), Failed> {
    let bytes = console::input(rt, file)?;
    match texts::explain(rt.alloc(), &bytes) {
        Ok(text) => Ok(print!(rt; "{text}")?),
        Err(Fault::Refused(refusal)) => console::tell_refusal(rt, refusal),
        Err(Fault::NoMemory) => Err(Failed::NoMemory),
    }
}

// What the arguments ask for.
fn run(rt: &HostRuntime) -> Result<(), Failed> {
    let args: Vec<String> = env::args(rt)?.skip(1).collect(rt.alloc())?;
    match args.as_slice() {
        [] => check_one(rt, "-"),
        [flag] if console::is_help(flag) => Ok(print!(rt; "{USAGE}")?),
        [file] => check_one(rt, file),
        _ => Err(Failed::Usage(USAGE)),
    }
}

fn main(rt: HostRuntime) -> ExitCode {
    console::end(&rt, run(&rt))
}

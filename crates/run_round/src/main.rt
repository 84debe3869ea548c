// The office's program: reads a round, prints its result, and writes the letters where a folder for them is named.
// What it prints and writes is made and proved in the crate `office`; here are only arguments, files and printing.
#![tactic(auto)]

use console::Failed;
use office::Settled;
use std::alloc::{AllocError, Global};
use std::process::ExitCode;
use std::{env, fs};

const USAGE: &str = "usage: run_round [FILE] [LETTERS_DIR]

Reads a round from FILE, or from standard input where no FILE is named or FILE is -, gives out the places by deferred
acceptance, and prints the number of asks and of those placed, what each applicant got, and each workshop's cut.
A round that is refused prints `refused NUMBER at PLACE` alone, and the status is 1.

With LETTERS_DIR it also writes each applicant's letter to LETTERS_DIR/0000.letter, LETTERS_DIR/0001.letter and so on.
The folder is made where it is missing. Anybody can check a letter alone with check_letter.
";

// The name of an applicant's letter: its number in four digits, so that the files lie in the order of the applicants.
fn letter_path(heap: Global, dir: &str, applicant: usize) -> Result<String, AllocError> {
    format!(in heap; "{dir}/{applicant:04}.letter")
}

// All letters, each in a file of its own, which the applicant's number names. Where one cannot be written, says which it is and that those
// before it are there: a match, since the line counts them.
fn write_letters(rt: &HostRuntime, settled: &Settled, dir: &str) -> Result<(), Failed> {
    if let Err(e) = fs::create_dir_all(rt, dir) {
        eprintln!(rt; "run_round: cannot make the folder {dir}: {e}; no letter was written")?;
        return Err(Failed::Told);
    }
    for a in 0..settled.applicants() {
        let path = letter_path(rt.alloc(), dir, a)?;
        if let Err(e) = fs::write(rt, path.as_str(), settled.letter(a)) {
            eprintln!(rt;
                "run_round: cannot write {path}: {e}; {a} letters were written before it"
            )?;
            return Err(Failed::Told);
        }
    }
    Ok(())
}

// The whole job for one round.
fn settle_round(rt: &HostRuntime, file: &str, letters: Option<&str>) -> Result<(), Failed> {
    let bytes = console::input(rt, file)?;
    let settled = console::settle_and_tell(rt, &bytes)?;
    match letters {
        Some(dir) => write_letters(rt, &settled, dir),
        None => Ok(()),
    }
}

// What the arguments ask for.
fn run(rt: &HostRuntime) -> Result<(), Failed> {
    let args: Vec<String> = env::args(rt)?.skip(1).collect(rt.alloc())?;
    match args.as_slice() {
        [] => settle_round(rt, "-", None),
        [flag] | [flag, _] if console::is_help(flag) => Ok(print!(rt; "{USAGE}")?),
        [file] => settle_round(rt, file, None),
        [file, dir] => settle_round(rt, file, Some(dir)),
        _ => Err(Failed::Usage(USAGE)),
    }
}

fn main(rt: HostRuntime) -> ExitCode {
    console::end(&rt, run(&rt))
}

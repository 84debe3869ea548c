// What the programs share: where their input comes from, how they tell a round's result or a refusal, and how they end. What they print
// is made and proved in the crates `texts` and `office`; no contract can say what a program reads or prints.
#![tactic(auto)]

ghost use Rattle.std.specs.Prelude.{◌≡◌, ◌↔◌, ◌⊎◌, IsTrue, codes, false, is_ok, IfOk, Ok, if◌then◌else◌};
ghost use Rattle.std.specs.Process.{exit_status};
ghost use Rattle.layout.specs.Bytes.{decode};
ghost use Rattle.office.specs.Settling.{tables_settled};

use layout::Refusal;
use office::Settled;
use std::alloc::AllocError;
use std::io::Read;
use std::process::ExitCode;
use std::{fs, io};
use texts::Fault;

// Why a program ends with status 1: what there was to say has been said, the arguments are not as the usage here has them, there was
// no memory, or nothing more could be printed. A `Fault` is matched and no `From` makes it a failure, since a refusal has to be told first.
#[derive(Clone, Copy, Debug)]
pub enum Failed {
    Told,
    Usage(&'static str),
    NoMemory,
    NoOutput,
}

impl From<io::Error> for Failed {
    fn from(_: io::Error) -> Failed {
        Failed::NoOutput
    }
}

impl From<AllocError> for Failed {
    fn from(_: AllocError) -> Failed {
        Failed::NoMemory
    }
}

// Whether an argument asks for the usage.
pub fn is_help(argument: &str) -> bool
    ensures { IsTrue result ↔ (argument.now ≡ codes "--help") ⊎ (argument.now ≡ codes "-h") }
{
    matches!(argument, "--help" | "-h")
}

// All of standard input.
fn standard_input(rt: &HostRuntime) -> io::Result<Vec<u8>> {
    let mut bytes = Vec::new(rt.alloc());
    rt.stdin().read_to_end(&mut bytes)?;
    Ok(bytes)
}

// The bytes of the file, or of standard input for `-`.
fn bytes_of(rt: &HostRuntime, file: &str) -> io::Result<Vec<u8>> {
    if file == "-" {
        return standard_input(rt);
    }
    fs::read(rt, file)
}

// The bytes of the file, or of standard input for `-`; where they cannot be had, one line that names the file.
pub fn input(rt: &HostRuntime, file: &str) -> Result<Vec<u8>, Failed> {
    bytes_of(rt, file).or_else(|e| {
        eprintln!(rt; "cannot read {file}: {e}")?;
        Err(Failed::Told)
    })
}

// Prints a refusal, alone, and fails.
pub fn tell_refusal(rt: &HostRuntime, refusal: Refusal) -> Result<(), Failed>
    ensures { is_ok result ≡ false }
{
    let text = texts::refusal_text(rt.alloc(), refusal)?;
    print!(rt; "{text}")?;
    Err(Failed::Told)
}

// Settles the round that the bytes are, and prints its result. A refusal is told, and fails.
pub fn settle_and_tell(rt: &HostRuntime, bytes: &[u8]) -> Result<Settled, Failed>
    ensures { IfOk result (λ s. decode bytes.now ≡ Ok (tables_settled s)) }
{
    match office::settle(rt.alloc(), bytes) {
        Ok(settled) => {
            let text = office::report(rt.alloc(), &settled)?;
            print!(rt; "{text}")?;
            Ok(settled)
        }
        Err(Fault::Refused(refusal)) => {
            tell_refusal(rt, refusal)?;
            Err(Failed::Told)
        }
        Err(Fault::NoMemory) => Err(Failed::NoMemory),
    }
}

// Says what has not been said yet, and hands the result on: a failure stays one.
pub fn finish(rt: &HostRuntime, done: Result<(), Failed>) -> Result<(), Failed>
    ensures { is_ok result ≡ is_ok done }
{
    match done {
        Err(Failed::NoMemory) => eprintln!(rt; "out of memory")?,
        Err(Failed::Usage(usage)) => eprint!(rt; "{usage}")?,
        Ok(()) | Err(Failed::Told | Failed::NoOutput) => {}
    }
    done
}

// Says what has not been said yet, and gives the status that a program ends with: 1 for a failure. `main` returns it, and not the
// failure itself, which would be printed once more, in the words of the code.
pub fn end(rt: &HostRuntime, done: Result<(), Failed>) -> ExitCode
    ensures { exit_status result ≡ (if is_ok done then 0 else 1) }
{
    match finish(rt, done) {
        Ok(()) => ExitCode::SUCCESS,
        Err(_) => ExitCode::FAILURE,
    }
}

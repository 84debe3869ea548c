// Random rounds beside a search through all assignments, other orders of asking, other lists, and the worked rounds.
#![tactic(auto)]

mod bytes;
mod case;
mod cut;
mod draw;
mod letter;
mod make;
mod orders;
mod program;
mod stable;
mod tally;
mod trial;
mod worked;

use case::Case;
use draw::Draw;
use std::alloc::Global;
use std::io;
use tally::{Check, Tally};

const ROUNDS: u64 = 10000;

// The checks of a random round as they are told.
const CHECKS: [(Check, &str); 12] = [
    (Check::Stable, "the result is stable"),
    (
        Check::Dearest,
        "nobody has it dearer in a stable assignment",
    ),
    (Check::SameLeft, "the same applicants and places are left"),
    (Check::Together, "all together, same result and asks"),
    (
        Check::OneByOne,
        "one by one in a random order, same result and asks",
    ),
    (
        Check::Renumbered,
        "applicants numbered anew, same result and asks",
    ),
    (Check::OtherList, "another list gets nothing dearer"),
    (
        Check::OneMore,
        "an applicant more gets nobody else anything dearer",
    ),
    (Check::Cut, "a cut is the last who is kept, open or shut"),
    (
        Check::FirstReached,
        "what was got is the first wish whose cut is reached",
    ),
    (
        Check::Letters,
        "all letters of a round as the trials write them",
    ),
    (
        Check::LetterJudged,
        "of an applicant's letters the right one is accepted and no other",
    ),
];

// A round that did not pass: the check, the seed that gives it again, and its bytes.
fn tell(rt: &HostRuntime, check: Check, seed: u64, case: &Case) -> io::Result<()> {
    print!(rt; "mismatch: {check}, seed {seed}, bytes")?;
    for b in &bytes::write(rt.alloc(), case)? {
        print!(rt; " {b:02x}")?;
    }
    println!(rt; "")
}

fn tell_rounds(rt: &HostRuntime, tally: &Tally) -> io::Result<()> {
    println!(rt; "random rounds {}", tally.rounds)?;
    println!(rt; "  with equal points {}", tally.ties)?;
    println!(rt; "  where the lots decide {}", tally.lots_decide)?;
    println!(rt; "  with several stable assignments {}", tally.several)?;
    println!(rt; "stable assignments found {}", tally.stable_seen)
}

fn tell_checks(rt: &HostRuntime, tally: &Tally) -> io::Result<()> {
    println!(rt; "checks passed")?;
    for (check, told) in CHECKS {
        println!(rt; "  {told} {}", tally.times_passed(check))?;
    }
    Ok(())
}

fn random_rounds(rt: &HostRuntime, tally: &mut Tally) -> io::Result<u64> {
    let alloc = rt.alloc();
    let mut bad = 0u64;
    for seed in 0..ROUNDS {
        let mut draw = Draw::new(seed);
        let case = make::draw_case(alloc, &mut draw)?;
        if let Err(check) = trial::check_round(alloc, &case, &mut draw, tally) {
            tell(rt, check, seed, &case)?;
            bad = bad.saturating_add(1);
        }
    }
    Ok(bad)
}

fn worked_round(alloc: Global, line: &str, tally: &mut Tally) -> Result<(), Check> {
    let worked = worked::read(alloc, line)?;
    trial::check_worked_round(alloc, &worked, &mut Draw::new(1), tally)
}

fn worked_rounds(rt: &HostRuntime) -> io::Result<u64> {
    let mut tally = Tally::default();
    let mut bad = 0u64;
    for line in worked::TABLE {
        if let Err(check) = worked_round(rt.alloc(), line, &mut tally) {
            println!(rt; "mismatch: {check}, {line}")?;
            bad = bad.saturating_add(1);
        }
    }
    println!(rt;
        "worked rounds that come out as in the table {}",
        tally.times_passed(Check::WorkedRound)
    )?;
    Ok(bad)
}

fn main(rt: HostRuntime) -> io::Result<()> {
    let bad_worked = worked_rounds(&rt)?;
    let mut tally = Tally::default();
    let bad = random_rounds(&rt, &mut tally)?;
    tell_rounds(&rt, &tally)?;
    tell_checks(&rt, &tally)?;
    println!(rt; "mismatches {}", bad_worked.saturating_add(bad))
}

// What is checked of a round, and how often each check was passed.
use layout::Refusal;
use std::alloc::{AllocError, AllocFailed};
use std::fmt;

// A check, and with it what went wrong in a round that does not pass.
#[derive(Clone, Copy, PartialEq, Eq, Debug)]
pub enum Check {
    // the program takes the round
    Settled,
    WorkedRound,
    Stable,
    // there is a stable assignment
    Exists,
    Dearest,
    SameLeft,
    Together,
    OneByOne,
    Renumbered,
    OtherList,
    OneMore,
    Cut,
    FirstReached,
    Letters,
    LetterJudged,
    // there is memory for the trial
    Memory,
}

impl fmt::Display for Check {
    fn fmt<W: fmt::Write>(&self, f: &mut fmt::Formatter<W>) -> fmt::Result {
        f.write_str(match self {
            Check::Settled => "settled",
            Check::WorkedRound => "worked round",
            Check::Stable => "stable",
            Check::Exists => "no stable assignment",
            Check::Dearest => "dearest",
            Check::SameLeft => "same left",
            Check::Together => "together",
            Check::OneByOne => "one by one",
            Check::Renumbered => "renumbered",
            Check::OtherList => "other list",
            Check::OneMore => "one more",
            Check::Cut => "cut",
            Check::FirstReached => "first reached",
            Check::Letters => "letters",
            Check::LetterJudged => "letter judged",
            Check::Memory => "memory",
        })
    }
}

impl From<AllocError> for Check {
    fn from(_e: AllocError) -> Check {
        Check::Memory
    }
}

impl<T: Drop> From<AllocFailed<T>> for Check {
    fn from(_e: AllocFailed<T>) -> Check {
        Check::Memory
    }
}

impl From<Refusal> for Check {
    fn from(_refusal: Refusal) -> Check {
        Check::Settled
    }
}

// As many as there are checks.
const CHECKS: usize = Check::Memory as usize + 1;

// How often each check was passed, and what sorts of rounds were seen.
#[derive(Clone, Copy, Default)]
pub struct Tally {
    pub rounds: usize,
    pub ties: usize,
    pub lots_decide: usize,
    pub several: usize,
    pub stable_seen: usize,
    // by check
    passed: [usize; CHECKS],
}

pub(crate) fn count(number: &mut usize) {
    *number = number.saturating_add(1);
}

impl Tally {
    pub(crate) fn times_passed(&self, check: Check) -> usize {
        self.passed[check as usize]
    }

    // Counts a check that was passed; the check as an error where it was not.
    pub(crate) fn passed(&mut self, check: Check, ok: bool) -> Result<(), Check> {
        if !ok {
            return Err(check);
        }
        count(&mut self.passed[check as usize]);
        Ok(())
    }
}

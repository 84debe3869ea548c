// The worked rounds as they are written in the table: lists from applicant 0; places; points by workshop in the order of applicants,
// 0 for no row; what each got; the cuts' points; asks. Lots are 1, 2, 3 and so on.
use crate::case::{Applicant, Case, Got};
use crate::cut::Cut;
use crate::orders::Ended;
use crate::program::Answer;
use crate::tally::Check;
use std::alloc::{AllocError, Global};

pub const TABLE: [&str; 8] = [
    "0 1 / 0 / 1 0 / 0 1 2 ; 1 1 1 ; 10 30 20 25 / 40 0 15 35 / 0 0 0 5 ; 1 0 none 2 ; 30 40 5 ; 8",
    "1 / 0 / 1 0 / 0 1 2 ; 1 1 1 ; 10 30 20 25 / 40 0 15 35 / 0 0 0 5 ; 1 0 none 2 ; 30 40 5 ; 7",
    "0 1 / 1 0 ; 1 1 ; 1 2 / 2 1 ; 0 1 ; 1 1 ; 2",
    "empty / empty ; 2 ; 3 4 ; none none ; open ; 0",
    "0 / 0 ; 2 ; 0 7 ; none 0 ; open ; 2",
    "0 1 ; 0 1 ; 9 / 9 ; 1 ; shut 9 ; 2",
    "0 1 2 / 0 1 2 / 0 1 2 / 0 1 2 ; 1 1 1 ; 4 3 2 1 / 4 3 2 1 / 4 3 2 1 ; 0 1 2 none ; 4 3 2 ; 9",
    "1 0 / 0 1 / 0 1 2 / 2 0 / 0 ; 2 1 1 ; 10 50 20 40 30 / 20 30 10 0 0 / 0 0 8 9 0 ; 1 0 none 2 0 ; 30 20 9 ; 7",
];

// A round of the table, and what is said of it.
#[derive(Drop)]
pub struct Worked<'a> {
    pub case: Case,
    ended: Ended,
    // the table's words
    cuts: &'a str,
}

impl Worked<'_> {
    // Whether the answer is the table's.
    pub(crate) fn says(&self, answer: &Answer) -> bool {
        answer.ended == self.ended
            && answer.cuts.len() == self.cuts.split_whitespace().count()
            && answer
                .cuts
                .iter()
                .zip(self.cuts.split_whitespace())
                .all(|(cut, word)| says_cut(word, *cut))
    }
}

fn says_cut(word: &str, cut: Cut) -> bool {
    match cut {
        Cut::Open => word == "open",
        Cut::Shut => word == "shut",
        Cut::Full { points, .. } => word.parse().is_ok_and(|said: u16| said == points),
    }
}

// The numbers among the words; "empty" is none.
fn numbers(alloc: Global, words: &str) -> Result<Vec<usize>, AllocError> {
    words
        .split_whitespace()
        .filter_map(|word| word.parse().ok())
        .collect(alloc)
}

// An applicant's points at each workshop.
fn points_of(alloc: Global, rows: &str, a: usize) -> Result<Vec<Option<u16>>, AllocError> {
    rows.split('/')
        .map(|row| row
            .split_whitespace()
            .nth(a)?
            .parse()
            .ok()
            .filter(|points: &u16| *points > 0))
        .collect(alloc)
}

fn applicants_of(alloc: Global, lists: &str, rows: &str) -> Result<Vec<Applicant>, AllocError> {
    let mut applicants = Vec::new(alloc);
    for (list, lot) in lists.split('/').zip(1u16..=5) {
        applicants.push(Applicant {
            lot,
            wishes: numbers(alloc, list)?,
            points: points_of(alloc, rows, applicants.len())?,
        })?;
    }
    Ok(applicants)
}

// Each word a workshop, or "none".
fn got_of(words: &str) -> Got {
    let mut got = Got::nothing();
    for (own, word) in got.workshops.iter_mut().zip(words.split_whitespace()) {
        *own = word.parse().ok();
    }
    got
}

// A line of the table.
pub(crate) fn read(alloc: Global, line: &str) -> Result<Worked<'_>, Check> {
    let columns: Vec<&str> = line.split(';').collect(alloc)?;
    let [lists, places, rows, got, cuts, asks] = columns.as_slice() else {
        return Err(Check::WorkedRound);
    };
    Ok(Worked {
        case: Case {
            applicants: applicants_of(alloc, lists, rows)?,
            places: numbers(alloc, places)?,
        },
        ended: Ended {
            got: got_of(got),
            asks: asks.trim().parse().map_err(|_| Check::WorkedRound)?,
        },
        cuts,
    })
}

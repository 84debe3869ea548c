// The program under trial: a round's bytes are read, applicants ask to the end, and cuts and letters are made. What it says is put
// into the trials' own words here, and nowhere else.
use crate::bytes::{self, NO_PLACE};
use crate::case::{Addressee, Assigned, Case, Got};
use crate::cut::Cut;
use crate::orders::Ended;
use crate::tally::Check;
use asking::{Desk, Left, Outcome, run};
use codec::{Round, Space, read};
use cuts::cut_of;
use layout::{Lot, Points};
use letters::write_letter;
use std::alloc::{AllocError, Global};

// What the program says of a round: who got what, the number of asks, the cuts, and whether its letters are those that the trials
// write for this result.
#[derive(Drop)]
pub struct Answer {
    pub ended: Ended,
    pub letters: bool,
    pub cuts: Vec<Cut>,
}

// What the program reads and leaves of a round.
#[derive(Clone, Copy)]
struct Settled<'a> {
    round: &'a Round<'a>,
    left: Left<'a>,
}

impl Settled<'_> {
    // Who got what; none where a position is not one of the list.
    fn got(&self, case: &Case) -> Option<Got> {
        let mut got = Got::nothing();
        for (a, (applicant, k)) in case.applicants.iter().zip(self.left.results).enumerate() {
            if *k != u16::from(NO_PLACE) {
                got.set(a, Some(*applicant.wishes.get(usize::from(*k))?));
            }
        }
        Some(got)
    }

    fn cuts(&self, alloc: Global) -> Result<Vec<Cut>, Check> {
        let seats = self.round.seats;
        let mut cuts = Vec::with_capacity(alloc, seats.len())?;
        for (from, to) in seats.iter().zip(seats.iter().skip(1)) {
            let bench = self.left.benches.get(*from as usize..*to as usize);
            cuts.push(match cut_of(bench.ok_or(Check::Settled)?, self.round) {
                cuts::Cut::Open => Cut::Open,
                cuts::Cut::Shut => Cut::Shut,
                cuts::Cut::Full(Points(points), Lot(lot)) => Cut::Full { points, lot },
            })?;
        }
        Ok(cuts)
    }

    // Whether the program's letter is the one that the trials write, which goes into `own`.
    fn is_letter_same(&self, own: &mut Vec<u8>, addressee: Addressee) -> Result<bool, AllocError> {
        let mut out = [0u8; 40];
        let len = write_letter(self.round, self.left, addressee.number, &mut out);
        addressee.letter(own, addressee.place())?;
        Ok(len.is_ok_and(|len| out.get(..len) == Some(own.as_slice())))
    }

    // The same of all applicants, with `own` for the letters. A loop, since `all` could not hand on that memory has run out.
    fn are_letters_same(&self, own: &mut Vec<u8>, assigned: Assigned) -> Result<bool, AllocError> {
        for (number, applicant) in assigned.case.applicants.iter().enumerate() {
            let addressee = Addressee {
                round: assigned,
                number,
                applicant,
            };
            if !self.is_letter_same(own, addressee)? {
                return Ok(false);
            }
        }
        Ok(true)
    }
}

// What is said of a round that was read, with `bytes` for the trials' own letters.
fn ask_and_tell(
    alloc: Global,
    case: &Case,
    round: &Round,
    bytes: &mut Vec<u8>,
) -> Result<Answer, Check> {
    let mut rows = [0u32; 20];
    let mut results = [0u16; 5];
    let mut benches = [0u32; 12];
    let mut desk = Desk {
        rows: &mut rows,
        results: &mut results,
        benches: &mut benches,
    };
    let Outcome { asks, placed } = run(round, &mut desk)?;
    let settled = Settled {
        round,
        left: desk.left(),
    };
    let got = settled.got(case).ok_or(Check::Settled)?;
    let cuts = settled.cuts(alloc)?;
    if placed != got.placed() || cuts.len() != case.places.len() {
        return Err(Check::Settled);
    }
    Ok(Answer {
        ended: Ended { got, asks },
        letters: settled.are_letters_same(bytes, Assigned { case, got: &got })?,
        cuts,
    })
}

// What the program says; an error where it refuses the round, or where its numbers do not fit each other.
pub(crate) fn settle(alloc: Global, case: &Case) -> Result<Answer, Check> {
    let mut bytes = bytes::write(alloc, case)?;
    let mut seats = [0u32; 5];
    let mut lots = [0u16; 5];
    let mut starts = [0u32; 6];
    let mut entries = [0u16; 20];
    let mut row_starts = [0u32; 5];
    let mut row_applicants = [0u16; 20];
    let mut row_points = [0u16; 20];
    let mut space = Space {
        seats: &mut seats,
        lots: &mut lots,
        starts: &mut starts,
        entries: &mut entries,
        row_starts: &mut row_starts,
        row_applicants: &mut row_applicants,
        row_points: &mut row_points,
    };
    let sizes = read(bytes.as_slice(), &mut space)?;
    let round = Round::over(
        sizes,
        &seats,
        &lots,
        &starts,
        &entries,
        &row_starts,
        &row_applicants,
        &row_points,
    );
    ask_and_tell(alloc, case, &round, &mut bytes)
}

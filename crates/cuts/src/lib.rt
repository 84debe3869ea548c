// Cuts: what an applicant needs to get into a workshop, read off the workshop's bench, and whether somebody reaches it.
#![tactic(auto)]

ghost use Rattle.std.specs.Prelude.{◌≡◌, Some};
ghost use Rattle.codec.specs.Rounds.{tables_of};
ghost use Rattle.cuts.specs.Cuts.{cut_of_bench, reached};
ghost use Rattle.cuts.specs.Words.{cut_words};

mod laws;

use codec::Round;
use itoa::Buffer;
pub use laws::{cuts_defined, told_by_cuts};
use layout::{Lot, Points};
use points::{goes_ahead, standing};
use std::fmt;

// What it took to get into a workshop: with places left, points above 0; with no places at all, nothing suffices; in a full one,
// the points and the lot of the last it keeps.
#[derive(Clone, Copy, PartialEq, Eq, Debug)]
pub enum Cut {
    Open,
    Shut,
    Full(Points, Lot),
}

// A cut in words: `30 lot 2`, `open` or `shut`.
impl fmt::Display for Cut {
    ghost output = { λ cut. Some (cut_words cut) };

    fn fmt<W: fmt::Write>(&self, f: &mut fmt::Formatter<W>) -> fmt::Result {
        match self {
            Cut::Open => write!(f, "open"),
            Cut::Shut => write!(f, "shut"),
            Cut::Full(Points(points), Lot(lot)) => {
                let (mut points_digits, mut lot_digits) = (Buffer::new(), Buffer::new());
                let points = points_digits.format(*points);
                let lot = lot_digits.format(*lot);
                write!(f, "{points} lot {lot}")
            }
        }
    }
}

// The cut of the workshop with this bench, whose empty seats hold `u32::MAX`.
pub fn cut_of(bench: &[u32], round: &Round) -> Cut
    ensures { result ≡ cut_of_bench (tables_of round.now) bench.now }
{
    match *bench {
        [] => Cut::Shut,
        [.., u32::MAX] => Cut::Open,
        [.., last] => {
            let (points, lot) = standing(round, last);
            Cut::Full(points, lot)
        }
    }
}

// Whether somebody with these points and this lot reaches the cut.
pub fn reaches(points: Points, lot: Lot, cut: Cut) -> bool
    ensures { result ≡ reached points lot cut }
{
    match cut {
        Cut::Open => points.0 > 0,
        Cut::Shut => false,
        Cut::Full(least, last) => points.0 > 0 && !goes_ahead(least, last, points, lot),
    }
}

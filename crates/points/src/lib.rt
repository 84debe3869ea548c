// Points and lots: who goes ahead of whom, and each list entry's row.
#![tactic(auto)]

ghost use Rattle.std.specs.Prelude.{◌≡◌, if◌then◌else◌, nat_lt};
ghost use Rattle.round.specs.ByPoints.{worth_of};
ghost use Rattle.codec.specs.Rounds.{tables_of};
ghost use Rattle.points.specs.Standing.{points_of_row, lot_of_row, row_worth};

mod merge;

use codec::Round;
use layout::{Lot, Points};
pub use merge::find_rows;
use std::cmp::Reverse;

// Of two applicants at a workshop the one with more points goes ahead, and with equal points the one with the lower lot. Nobody goes
// ahead without points.
pub fn goes_ahead(points: Points, lot: Lot, other: Points, other_lot: Lot) -> bool
    ensures { result ≡ nat_lt (worth_of other.0 other_lot.0) (worth_of points.0 lot.0) }
{
    points > Points(0) && (points, Reverse(lot)) > (other, Reverse(other_lot))
}

// Where to look for a row's points, among so many rows, and by how many bits to shift what stands there: a row that is there is not
// shifted at all, and of another the first row's points are shifted away.
fn place_and_shift(row: usize, rows: usize) -> (usize, u32)
    ensures { result ≡ (if nat_lt row rows then (row, 0) else (0, 16)) }
{
    if row < rows { (row, 0) } else { (0, 16) }
}

// The points of a row; none for a number that is no row. Many list entries have none, in no order that a processor could guess, so
// nothing branches on it: with `get` and `map_or` in its place full-size rounds took 1.01 to 1.03 times the plain program's time, where
// the same program took 0.83 to 0.89 times with this (best times, when the two were tried beside each other).
pub fn points_of(round: &Round, row: u32) -> Points
    ensures { result.0 ≡ points_of_row (tables_of round.now) row }
{
    if round.row_points.len() == 0 {
        return Points(0);
    }
    let (i, shift) = place_and_shift(row as usize, round.row_points.len());
    Points((round.row_points[i] as u32 >> shift) as u16)
}

// The lot of the applicant whose row it is; 0 for a number that is no row.
fn lot_of(round: &Round, row: u32) -> Lot
    ensures { result.0 ≡ lot_of_row (tables_of round.now) row }
{
    match round.row_applicants.get(row as usize) {
        Some(applicant) => Lot(round.lots[*applicant as usize]),
        None => Lot(0),
    }
}

// The points and the lot of a row; 0 and 0 for a number that is no row.
pub fn standing(round: &Round, row: u32) -> (Points, Lot)
    ensures points { result.0.0 ≡ points_of_row (tables_of round.now) row }
    ensures lot { result.1.0 ≡ lot_of_row (tables_of round.now) row }
{
    (points_of(round, row), lot_of(round, row))
}

// Whether a row goes ahead of another one. Different points settle it with no look at the lots, which most comparisons are spared.
pub fn row_ahead(round: &Round, row: u32, other: u32) -> bool
    ensures { result ≡ nat_lt (row_worth (tables_of round.now) other) (row_worth (tables_of round.now) row) }
{
    let points = points_of(round, row);
    let other_points = points_of(round, other);
    if points != other_points {
        return points > other_points;
    }
    goes_ahead(
        points,
        lot_of(round, row),
        other_points,
        lot_of(round, other),
    )
}

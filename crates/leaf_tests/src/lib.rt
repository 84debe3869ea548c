// Tables of cases for the comparison by points and lots and for benches, in a crate of their own so that the crates they test are
// not proved twice.
#![tactic(auto)]

use bench::Answer;
use codec::Round;

// All of `order` ask, the first one first.
pub(crate) fn ask_all(round: &Round, bench: &mut [u32], order: &[u32]) {
    for row in order {
        let _ = bench::ask(bench, round, *row);
    }
}

// The seats hold `best`, as many as there are, and the others are empty.
pub(crate) fn seats_are(seats: &[u32], best: &[u32]) -> bool {
    let taken = seats.len().min(best.len());
    seats[..taken] == best[..taken] && seats[taken..].iter().all(|seat| *seat == u32::MAX)
}

// On an empty bench all of `order` ask; true if it holds `best` then.
pub(crate) fn one_order(round: &Round, seats: &mut [u32], order: &[u32], best: &[u32]) -> bool {
    seats.fill(u32::MAX);
    ask_all(round, seats, order);
    seats_are(seats, best)
}

// Four rows ask in every order, each of them once; true if the bench always holds `best`.
pub(crate) fn all_orders(round: &Round, seats: &mut [u32], best: &[u32]) -> bool {
    for a in 0..4u32 {
        for b in 0..4u32 {
            for c in 0..4u32 {
                for d in 0..4u32 {
                    if a != b && a != c && a != d && b != c && b != d && c != d {
                        if !one_order(round, seats, &[a, b, c, d], best) {
                            return false;
                        }
                    }
                }
            }
        }
    }
    true
}

// The same on benches of no, one, three and forty places.
pub(crate) fn all_places(round: &Round, best: &[u32]) -> bool {
    let mut none = [0u32; 0];
    let mut one = [0u32; 1];
    let mut three = [0u32; 3];
    let mut forty = [0u32; 40];
    all_orders(round, &mut none, best)
        && all_orders(round, &mut one, best)
        && all_orders(round, &mut three, best)
        && all_orders(round, &mut forty, best)
}

// One place, asked in turn by rows 2, 1, 0 and by a number that is no row.
pub(crate) fn answers(round: &Round) -> bool {
    let mut one = [u32::MAX; 1];
    bench::ask(&mut one, round, 2) == Answer::Kept
        && bench::ask(&mut one, round, 1) == Answer::Displaced(2)
        && bench::ask(&mut one, round, 0) == Answer::TurnedDown
        && bench::ask(&mut one, round, 4) == Answer::TurnedDown
}

// Each of the four applicants lists the workshop, and so finds its row; what lies behind is left.
pub(crate) fn rows_found(round: &Round) -> bool {
    let mut rows = [7u32; 5];
    let found = points::find_rows(round, &mut rows);
    found == Ok(4) && seats_are(&rows, &[0, 1, 2, 3, 7])
}

#[cfg(test)]
mod tests {
    use super::*;
    use codec::Space;
    use layout::{Lot, Points};
    use std::test::Fail;

    // points, lot, the other's points and lot, and whether the first goes ahead
    const PAIRS: [(u16, u16, u16, u16, bool); 10] = [
        (7, 5, 3, 1, true),
        (3, 1, 7, 5, false),
        (7, 2, 7, 5, true),
        (7, 5, 7, 2, false),
        (7, 5, 7, 5, false),
        (0, 1, 0, 2, false),
        (0, 0, 1, 65535, false),
        (1, 65535, 0, 0, true),
        (65535, 65535, 65534, 0, true),
        (65535, 0, 65535, 65535, true),
    ];

    #[test]
    fn comparison(rt: HostRuntime) {
        for (points, lot, other, other_lot, ahead) in PAIRS {
            assert_eq!(rt;
                points::goes_ahead(Points(points), Lot(lot), Points(other), Lot(other_lot)),
                ahead
            );
        }
    }

    // One workshop, four applicants with the lots 5, 2, 8, 1 and the points 7, 7, 3, 9.
    const ROUND: [u8; 43] = [
        4, 0, 1, 0, 40, 5, 0, 1, 0, 2, 0, 1, 0, 8, 0, 1, 0, 1, 0, 1, 0, 4, 0, 0, 0, 0, 7, 0, 0, 1,
        0, 7, 0, 0, 2, 0, 3, 0, 0, 3, 0, 9, 0,
    ];

    #[test]
    fn benches(rt: HostRuntime) -> Result<(), Fail> {
        let mut seats = [0u32; 2];
        let mut lots = [0u16; 4];
        let mut starts = [0u32; 5];
        let mut entries = [0u16; 4];
        let mut row_starts = [0u32; 2];
        let mut row_applicants = [0u16; 4];
        let mut row_points = [0u16; 4];
        let mut space = Space {
            seats: &mut seats,
            lots: &mut lots,
            starts: &mut starts,
            entries: &mut entries,
            row_starts: &mut row_starts,
            row_applicants: &mut row_applicants,
            row_points: &mut row_points,
        };
        let sizes = codec::read(&ROUND, &mut space)?;
        let round = Round::over(
            sizes,
            &seats,
            &lots,
            &starts,
            &entries,
            &row_starts,
            &row_applicants,
            &row_points,
        );
        assert!(rt; all_places(&round, &[3, 1, 0, 2]));
        assert!(rt; answers(&round));
        assert!(rt; rows_found(&round));
        Ok(())
    }
}

// Rounds that are refused, with the number and the place worked out by hand, and one round that is taken, read, viewed and written.
#![tactic(auto)]

ghost use Rattle.std.specs.Prelude.{◌<◌, ◌≤◌};

#[cfg(test)]
mod tests {
    use codec::{Round, Space};
    use layout::{Lent, Refusal, Sizes};
    use std::test::Fail;

    // Bytes that are refused, and with which number and place.
    const REFUSED: [(&[u8], usize, usize); 37] = [
        // the bytes end too early
        (&[], 1, 0),
        (&[5], 1, 1),
        (&[1, 0, 1, 0, 3], 1, 5),
        (&[160, 15], 1, 2),
        (&[0, 0, 0, 1], 1, 4),
        (
            &[1, 0, 1, 0, 2, 0, 0, 0, 2, 0, 0, 0, 0, 5, 0, 0, 0, 0],
            1,
            18,
        ),
        // too many applicants, no workshop or too many, too many places
        (&[161, 15], 2, 0),
        (&[161, 15, 0, 0], 2, 0),
        (&[0, 0, 0, 0], 2, 2),
        (&[0, 0, 1, 1], 2, 2),
        (&[0, 0, 2, 0, 40, 41], 2, 5),
        (&[0, 0, 1, 0, 255], 2, 4),
        // lists that are too long
        (&[1, 0, 1, 0, 1, 0, 0, 21], 3, 7),
        (&[1, 0, 1, 0, 1, 0, 0, 255], 3, 7),
        (&[2, 0, 1, 0, 1, 0, 0, 0, 1, 0, 21], 3, 10),
        (&[1, 0, 1, 0, 1, 0, 0, 20], 1, 8),
        // entries that are no workshop, or stand in the list already
        (&[1, 0, 1, 0, 1, 0, 0, 1, 1], 4, 8),
        (&[1, 0, 2, 0, 1, 1, 0, 0, 2, 1, 1], 4, 10),
        (&[1, 0, 1, 0, 0, 5, 0, 2, 0, 255], 4, 9),
        // lots that are taken, before the count
        (&[2, 0, 1, 0, 1, 7, 0, 0, 7, 0], 5, 8),
        (&[2, 0, 1, 0, 1, 7, 1, 0, 7, 1, 21], 5, 8),
        (&[3, 0, 1, 0, 1, 1, 0, 0, 2, 0, 1, 0, 1, 0, 0], 5, 12),
        // too many rows
        (&[0, 0, 1, 0, 1, 97, 234], 6, 5),
        (&[0, 0, 1, 0, 1, 255, 255], 6, 5),
        (&[1, 0, 1, 0, 1, 0, 0, 0, 255, 255], 6, 8),
        (&[0, 0, 1, 0, 1, 96, 234], 1, 7),
        // rows of no workshop, no applicant, no points; before the order
        (&[1, 0, 1, 0, 1, 0, 0, 0, 1, 0, 1], 7, 10),
        (&[1, 0, 1, 0, 1, 0, 0, 0, 1, 0, 0, 1, 0], 7, 10),
        (&[1, 0, 1, 0, 1, 0, 0, 0, 1, 0, 0, 0, 0, 0, 0], 7, 10),
        (
            &[
                1, 0, 2, 0, 1, 1, 0, 0, 0, 2, 0, 0, 0, 0, 5, 0, 2, 0, 0, 5, 0,
            ],
            7,
            16,
        ),
        (
            &[1, 0, 1, 0, 1, 0, 0, 0, 2, 0, 0, 0, 0, 5, 0, 0, 0, 0, 0, 0],
            7,
            15,
        ),
        // rows that do not come after the one before
        (
            &[
                2, 0, 1, 0, 1, 1, 0, 0, 2, 0, 0, 2, 0, 0, 1, 0, 5, 0, 0, 0, 0, 5, 0,
            ],
            8,
            18,
        ),
        (
            &[
                2, 0, 1, 0, 1, 1, 0, 0, 2, 0, 0, 2, 0, 0, 0, 0, 5, 0, 0, 0, 0, 6, 0,
            ],
            8,
            18,
        ),
        (
            &[
                1, 0, 2, 0, 1, 1, 0, 0, 0, 2, 0, 1, 0, 0, 5, 0, 0, 0, 0, 5, 0, 255,
            ],
            8,
            16,
        ),
        // bytes after the last row
        (&[0, 0, 1, 0, 1, 0, 0, 0], 9, 7),
        (&[0, 0, 1, 0, 1, 0, 0, 255, 255], 9, 7),
        (&[1, 0, 1, 0, 1, 0, 0, 0, 1, 0, 0, 0, 0, 1, 0, 1], 9, 15),
    ];

    // Two applicants, two workshops with one place and two, two rows.
    const ROUND: [u8; 27] = [
        2, 0, 2, 0, 1, 2, 7, 0, 2, 0, 1, 3, 0, 1, 1, 2, 0, 0, 0, 0, 5, 0, 1, 1, 0, 9, 0,
    ];

    #[test]
    fn refused_by_number_and_place(rt: HostRuntime) -> Result<(), Fail> {
        for (bytes, number, place) in &REFUSED {
            let Err(e) = codec::check(bytes) else {
                return Err(Fail::new("a round that should be refused is taken"));
            };
            assert_eq!(rt; e.number(), *number);
            assert_eq!(rt; e.place(), *place);
        }
        Ok(())
    }

    #[test]
    fn prefixes_end_too_early(rt: HostRuntime) {
        for k in 0..27 {
            assert_eq!(rt; codec::check(&ROUND[0..k]), Err(Refusal::Short(k)));
        }
        assert_eq!(rt;
            codec::check(&ROUND),
            Ok(Sizes {
                applicants: 2,
                workshops: 2,
                entries: 3,
                rows: 2,
            })
        );
    }

    // One less than `full` where it is the turn of this slice.
    fn cut(turn: usize, slice: usize, full: usize) -> usize
        requires { 0 < full }
        ensures { result ≤ full }
    {
        if turn == slice { full - 1 } else { full }
    }

    // Each of the seven slices is too short in turn; none is written.
    #[test]
    fn no_room_for_the_tables(rt: HostRuntime) -> Result<(), Fail> {
        for turn in 0..7 {
            let mut seats = [9u32; 3];
            let mut lots = [9u16; 2];
            let mut starts = [9u32; 3];
            let mut entries = [9u16; 3];
            let mut row_starts = [9u32; 3];
            let mut row_applicants = [9u16; 2];
            let mut row_points = [9u16; 2];
            let mut space = Space {
                seats: &mut seats[0..cut(turn, 0, 3)],
                lots: &mut lots[0..cut(turn, 1, 2)],
                starts: &mut starts[0..cut(turn, 2, 3)],
                entries: &mut entries[0..cut(turn, 3, 3)],
                row_starts: &mut row_starts[0..cut(turn, 4, 3)],
                row_applicants: &mut row_applicants[0..cut(turn, 5, 2)],
                row_points: &mut row_points[0..cut(turn, 6, 2)],
            };
            let Err(e) = codec::read(&ROUND, &mut space) else {
                return Err(Fail::new("a slice that is too short is filled"));
            };
            assert_eq!(rt; e.number(), 10);
            assert_eq!(rt; e.place(), 3);
            assert_eq!(rt; seats, [9; 3]);
            assert_eq!(rt; lots, [9; 2]);
            assert_eq!(rt; starts, [9; 3]);
            assert_eq!(rt; entries, [9; 3]);
            assert_eq!(rt; row_starts, [9; 3]);
            assert_eq!(rt; row_applicants, [9; 2]);
            assert_eq!(rt; row_points, [9; 2]);
        }
        Ok(())
    }

    // A fault of the bytes comes before slices that are too short.
    #[test]
    fn faults_before_room(rt: HostRuntime) {
        for k in 0..27 {
            let mut space = Space {
                seats: &mut [],
                lots: &mut [],
                starts: &mut [],
                entries: &mut [],
                row_starts: &mut [],
                row_applicants: &mut [],
                row_points: &mut [],
            };
            let r = codec::read(&ROUND[0..k], &mut space);
            assert_eq!(rt; r, Err(Refusal::Short(k)));
        }
    }

    // What lies behind the tables and behind the bytes stays.
    #[test]
    fn read_viewed_and_written(rt: HostRuntime) -> Result<(), Fail> {
        let mut seats = [9u32; 4];
        let mut lots = [9u16; 3];
        let mut starts = [9u32; 4];
        let mut entries = [9u16; 4];
        let mut row_starts = [9u32; 4];
        let mut row_applicants = [9u16; 3];
        let mut row_points = [9u16; 3];
        let mut space = Space {
            seats: &mut seats,
            lots: &mut lots,
            starts: &mut starts,
            entries: &mut entries,
            row_starts: &mut row_starts,
            row_applicants: &mut row_applicants,
            row_points: &mut row_points,
        };
        let sizes = codec::read(&ROUND, &mut space)?;
        assert_eq!(rt; seats, [0, 1, 3, 9]);
        assert_eq!(rt; lots, [7, 3, 9]);
        assert_eq!(rt; starts, [0, 2, 3, 9]);
        assert_eq!(rt; entries, [0, 1, 1, 9]);
        assert_eq!(rt; row_starts, [0, 1, 2, 9]);
        assert_eq!(rt; row_applicants, [0, 1, 9]);
        assert_eq!(rt; row_points, [5, 9, 9]);
        let round = Round::over(
            sizes,
            &seats,
            &lots,
            &starts,
            &entries,
            &row_starts,
            &row_applicants,
            &row_points,
        );
        assert_eq!(rt; round.applicants(), 2);
        assert_eq!(rt; round.workshops(), 2);
        let mut out = [8u8; 28];
        assert_eq!(rt; codec::write(&round, &mut out), Ok(27));
        assert_eq!(rt; &out[0..27], &ROUND[0..27]);
        assert_eq!(rt; out[27], 8);
        assert_eq!(rt;
            codec::write(&round, &mut out[0..26]),
            Err(Refusal::NoRoom(Lent::RoundTables))
        );
        Ok(())
    }
}

// Letters that are accepted and letters that are refused, with the number and the place worked out by hand.
#![tactic(auto)]

#[cfg(test)]
mod tests {
    use layout::Refusal;
    use letters::check_letter;

    // Applicant 3 with lot 7: no points at workshop 4, which is open; 30 points at workshop 9, whose last has 30 and lot 8; 5 at
    // workshop 200, which is shut. It has got workshop 9.
    const HEAD: [u8; 5] = [3, 0, 7, 0, 3];

    const FIRST: [u8; 8] = [4, 0, 0, 0, 0, 0, 0, 0];

    const SECOND: [u8; 8] = [9, 30, 0, 1, 30, 0, 8, 0];

    const THIRD: [u8; 8] = [200, 5, 0, 2, 0, 0, 0, 0];

    fn letter() -> [u8; 31] {
        let mut bytes = [1; 31];
        bytes[0..5].copy_from_slice(&HEAD);
        bytes[5..13].copy_from_slice(&FIRST);
        bytes[13..21].copy_from_slice(&SECOND);
        bytes[21..29].copy_from_slice(&THIRD);
        bytes
    }

    // The number and the place of the refusal, or 0 and 0.
    fn told(bytes: &[u8]) -> (usize, usize) {
        match check_letter(bytes) {
            Ok(_) => (0, 0),
            Err(refusal) => (refusal.number(), refusal.place()),
        }
    }

    // One byte of the letter is another: where, what, and what is told then.
    const TURNED: [(usize, u8, usize, usize); 43] = [
        // any applicant, any workshop
        (0, 255, 0, 0),
        (1, 255, 0, 0),
        (5, 255, 0, 0),
        // more or fewer entries than there are
        (4, 21, 11, 4),
        (4, 255, 11, 4),
        (4, 20, 11, 30),
        (4, 2, 11, 21),
        (4, 0, 11, 5),
        // a workshop that stands in the letter already
        (13, 4, 11, 13),
        (21, 4, 11, 21),
        (21, 9, 11, 21),
        // no kind of cut
        (8, 3, 11, 8),
        (16, 255, 11, 16),
        // numbers in a cut that is not full
        (9, 1, 11, 9),
        (10, 1, 11, 9),
        (11, 1, 11, 11),
        (12, 1, 11, 11),
        (16, 0, 11, 17),
        (16, 2, 11, 17),
        (25, 1, 11, 25),
        (28, 1, 11, 27),
        // a place that is not in the list
        (29, 3, 11, 29),
        (29, 254, 11, 29),
        // another place than the first reached
        (29, 0, 12, 1),
        (29, 2, 12, 1),
        (29, 255, 12, 1),
        // points at the open workshop; a full cut of 0 points is not reached without points
        (6, 1, 12, 0),
        (7, 1, 12, 0),
        (8, 1, 0, 0),
        (8, 2, 0, 0),
        // lot and points against those of the last: at the cut, behind it, ahead of it
        (2, 8, 0, 0),
        (2, 9, 12, 255),
        (3, 1, 12, 255),
        (14, 0, 12, 255),
        (14, 29, 12, 255),
        (14, 31, 0, 0),
        (17, 0, 0, 0),
        (17, 31, 12, 255),
        (18, 1, 12, 255),
        (19, 7, 0, 0),
        (19, 6, 12, 255),
        (20, 1, 0, 0),
        // what comes behind the first that is reached
        (24, 0, 0, 0),
    ];

    #[test]
    fn one_byte_turned(rt: HostRuntime) {
        assert_eq!(rt; told(&letter()[0..30]), (0, 0));
        for (at, byte, number, place) in &TURNED {
            let mut bytes = letter();
            assert!(rt; *at < 30);
            bytes[*at] = *byte;
            assert_eq!(rt; told(&bytes[0..30]), (*number, *place));
        }
    }

    // Bytes are missing, or one is too many, which comes before a place that is not the first.
    #[test]
    fn too_short_and_too_long(rt: HostRuntime) {
        let mut bytes = letter();
        for k in 0..30 {
            assert_eq!(rt; told(&bytes[0..k]), (11, k));
        }
        assert_eq!(rt; told(&bytes), (11, 30));
        bytes[29] = 0;
        assert_eq!(rt; told(&bytes), (11, 30));
    }

    // A fault in a number that is there comes before bytes that are missing behind it.
    const CUT_SHORT: [(&[u8], usize); 7] = [
        (&[0, 0, 0, 0, 21], 4),
        (&[0, 0, 0, 0, 1, 7, 0, 0, 3], 8),
        (&[0, 0, 0, 0, 1, 7, 0, 0, 0, 1], 10),
        (&[0, 0, 0, 0, 1, 7, 0, 0, 0, 1, 0], 9),
        (&[0, 0, 0, 0, 1, 7, 0, 0, 2, 0, 0, 1], 12),
        (&[0, 0, 0, 0, 1, 7, 0, 0, 2, 0, 0, 0, 1], 11),
        (&[0, 0, 0, 0, 0, 0], 5),
    ];

    #[test]
    fn cut_short_behind_a_fault(rt: HostRuntime) {
        for (bytes, place) in &CUT_SHORT {
            assert_eq!(rt; told(bytes), (11, *place));
        }
        assert_eq!(rt; told(&[3, 0, 7, 0, 0, 255]), (0, 0));
    }
}

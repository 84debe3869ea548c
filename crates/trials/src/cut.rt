// Cuts from the words: the points and the lot of the last that a full workshop keeps, open with places left, shut with none.
use crate::case::{Addressee, Applicant, Assigned};
use std::cmp::Reverse;

#[derive(Clone, Copy, PartialEq, Eq)]
pub enum Cut {
    Open,
    Shut,
    Full { points: u16, lot: u16 },
}

impl Cut {
    // Whether an applicant reaches the cut of w: it has points there, and the cut is open, or it goes ahead of the last who is kept or
    // is that one.
    fn is_reached(self, w: usize, applicant: &Applicant) -> bool {
        let standing = applicant.standing_at(w);
        applicant.points_at(w).is_some()
            && match self {
                Cut::Open => true,
                Cut::Shut => false,
                Cut::Full { points, lot } => standing >= (Some(points), Reverse(lot)),
            }
    }
}

impl<'a> Assigned<'a> {
    // The one who goes behind all others placed at w, with its number.
    pub(crate) fn last_at(&self, w: usize) -> Option<(usize, &'a Applicant)> {
        self.case
            .applicants
            .iter()
            .enumerate()
            .filter(|(a, _)| self.got.of(*a) == Some(w))
            .min_by_key(|(_, applicant)| applicant.standing_at(w))
    }

    pub(crate) fn cut_at(&self, w: usize) -> Cut {
        let places = self.case.places_at(w);
        if places == 0 {
            return Cut::Shut;
        }
        if self.got.number_at(w) < places {
            return Cut::Open;
        }
        self.last_at(w).map_or(
            Cut::Open,
            |(_, last)| Cut::Full {
                points: last.points_at(w).unwrap_or(0),
                lot: last.lot,
            },
        )
    }
}

impl Addressee<'_> {
    // The first position of its list whose cut is reached.
    pub(crate) fn first_reached(&self) -> Option<usize> {
        self.applicant
            .wishes
            .iter()
            .position(|w| self.round.cut_at(*w).is_reached(*w, self.applicant))
    }
}

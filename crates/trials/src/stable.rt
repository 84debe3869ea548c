// Whether an assignment is stable, straight from the words, and all stable ones among all assignments.
use crate::case::{Applicant, Assigned, Case, Got};
use std::alloc::{AllocError, Global};

impl Assigned<'_> {
    // Everyone placed has listed the workshop and has points there.
    fn all_wanted(&self) -> bool {
        self.case
            .applicants
            .iter()
            .zip(&self.got.workshops)
            .all(|(applicant, own)| own.is_none_or(|w| applicant.wants(w)))
    }

    // No workshop has more than its places.
    fn all_within(&self) -> bool {
        self.case
            .places
            .iter()
            .enumerate()
            .all(|(w, places)| self.got.number_at(w) <= *places)
    }

    // Somebody is placed at w who goes behind the applicant.
    fn has_behind(&self, w: usize, applicant: &Applicant) -> bool {
        self.case.applicants.iter().zip(&self.got.workshops).any(|(other, own)| *own == Some(w)
            && other.standing_at(w) < applicant.standing_at(w))
    }

    // The applicant has points at w, which is dearer to it than its own, and w has a place left or somebody who goes behind it.
    fn is_blocked_by(&self, w: usize, applicant: &Applicant, own: Option<usize>) -> bool {
        applicant.points_at(w).is_some()
            && applicant.is_dearer(Some(w), own)
            && (self.got.number_at(w) < self.case.places_at(w) || self.has_behind(w, applicant))
    }

    fn none_blocks(&self) -> bool {
        self.case.applicants.iter().zip(&self.got.workshops).all(|(applicant, own)| {
            !(0..self.case.places.len()).any(|w| self.is_blocked_by(w, applicant, *own))
        })
    }

    pub(crate) fn is_stable(&self) -> bool {
        self.all_wanted() && self.all_within() && self.none_blocks()
    }

    // Nobody has in `other` a dearer workshop than here.
    pub(crate) fn none_dearer_in(&self, other: &Got) -> bool {
        self.case.applicants.iter().enumerate().all(|(a, applicant)| !applicant.is_dearer(
            other.of(a),
            self.got.of(a),
        ))
    }

    // The same applicants are placed nowhere as in `other`, and every workshop has the same number.
    pub(crate) fn same_are_left_in(&self, other: &Got) -> bool {
        self.got
            .workshops
            .iter()
            .zip(&other.workshops)
            .all(|(w, v)| w.is_none() == v.is_none())
            && (0..self.case.places.len()).all(|w| self.got.number_at(w) == other.number_at(w))
    }
}

// The number of all assignments of a round's applicants: each has one of the workshops, or none.
fn assignments(case: &Case) -> usize {
    case.applicants.iter().fold(1, |number: usize, _| {
        number.saturating_mul(case.places.len() + 1)
    })
}

// Counts an assignment up, as a number by its digits: after a workshop comes the next, after the last none, and after none the first
// again, and then the next applicant's is counted up too. So after the last assignment, nothing for anybody, comes the first.
fn count_up(case: &Case, got: &mut Got) {
    for (own, _) in got.workshops.iter_mut().zip(&case.applicants) {
        let before = *own;
        *own = Some(before.map_or(0, |w| w.saturating_add(1))).filter(|w| *w < case.places.len());
        if before.is_some() {
            return;
        }
    }
}

pub(crate) fn stable_assignments(alloc: Global, case: &Case) -> Result<Vec<Got>, AllocError> {
    let mut got = Got::nothing();
    (0..assignments(case))
        .filter_map(|_| {
            count_up(case, &mut got);
            Assigned { case, got: &got }.is_stable().then_some(got)
        })
        .collect(alloc)
}

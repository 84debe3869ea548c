// Asking to the end, twice: all together step by step as it is defined, and one by one in a random order with benches.
use crate::case::{APPLICANTS, Applicant, Assigned, Case, Got};
use crate::draw::Draw;
use std::array;

// Who got what, and how many list entries were asked.
#[derive(Clone, Copy, PartialEq, Eq)]
pub struct Ended {
    pub got: Got,
    pub asks: usize,
}

// Each applicant's position in its own list; the list's length where it is used up.
#[derive(Clone, Copy)]
struct State {
    at: [usize; APPLICANTS],
}

impl State {
    fn first() -> State {
        State {
            at: [0; APPLICANTS],
        }
    }

    fn of(&self, a: usize) -> usize {
        self.at.get(a).copied().unwrap_or(0)
    }

    fn move_on(&mut self, a: usize) {
        if let Some(at) = self.at.get_mut(a) {
            *at = at.saturating_add(1);
        }
    }

    // The workshop at an applicant's position.
    fn wish(&self, case: &Case, a: usize) -> Option<usize> {
        case.applicants.get(a)?.wishes.get(self.of(a)).copied()
    }

    // How many of those who have asked w, and have points there, go ahead of the applicant.
    fn rivals(&self, case: &Case, w: usize, applicant: &Applicant) -> usize {
        case.applicants
            .iter()
            .zip(&self.at)
            .filter(|(other, at)| {
                other.points_at(w).is_some()
                    && other.place_of(w).is_some_and(|k| k <= **at)
                    && other.standing_at(w) > applicant.standing_at(w)
            })
            .count()
    }

    fn is_turned_down(&self, case: &Case, applicant: &Applicant, at: usize) -> bool {
        applicant.wishes.get(at).is_some_and(|w| {
            applicant.points_at(*w).is_none()
                || self.rivals(case, *w, applicant) >= case.places_at(*w)
        })
    }

    fn step(&self, case: &Case) -> State {
        let mut next = *self;
        for (applicant, at) in case.applicants.iter().zip(next.at.iter_mut()) {
            if self.is_turned_down(case, applicant, *at) {
                *at = at.saturating_add(1);
            }
        }
        next
    }

    fn ended(&self, case: &Case) -> Ended {
        Ended {
            got: Got {
                workshops: array::from_fn(|a| self.wish(case, a)),
            },
            asks: case
                .applicants
                .iter()
                .zip(&self.at)
                .fold(0, |asks: usize, (applicant, at)| {
                    asks.saturating_add(at.saturating_add(1).min(applicant.wishes.len()))
                }),
        }
    }
}

// All who are turned down move on together; 20 steps are as many as there can be entries.
pub(crate) fn together(case: &Case) -> Ended {
    (0..20)
        .fold(State::first(), |state, _| state.step(case))
        .ended(case)
}

// Somebody who sits on no bench and has entries left, looked for from a random applicant on, and the workshop that it asks next.
fn next_to_ask(case: &Case, asked: &State, got: &Got, draw: &mut Draw) -> Option<(usize, usize)> {
    let first = draw.below(APPLICANTS);
    (first..APPLICANTS)
        .chain(0..first)
        .filter(|a| got.of(*a).is_none())
        .find_map(|a| asked.wish(case, a).map(|w| (a, w)))
}

// The applicant sits down on the bench of w, if it has points there, and the last gets up where there are too many.
fn sit_down(case: &Case, got: &mut Got, w: usize, a: usize) {
    let applicant = case.applicants.get(a);
    if applicant.is_some_and(|applicant| applicant.points_at(w).is_some()) {
        got.set(a, Some(w));
        if got.number_at(w) > case.places_at(w)
            && let Some((last, _)) = (Assigned { case, got }).last_at(w)
        {
            got.set(last, None);
        }
    }
}

pub(crate) fn one_by_one(case: &Case, draw: &mut Draw) -> Ended {
    let mut got = Got::nothing();
    let mut asked = State::first();
    let mut asks = 0usize;
    for _ in 0..25 {
        if let Some((a, w)) = next_to_ask(case, &asked, &got, draw) {
            asked.move_on(a);
            asks = asks.saturating_add(1);
            sit_down(case, &mut got, w, a);
        }
    }
    Ended { got, asks }
}

// What is checked of one round: the program's answer beside the search, other orders of asking, other lists and one list less.
use crate::case::{Addressee, Applicant, Assigned, Case};
use crate::draw::Draw;
use crate::orders::Ended;
use crate::program::Answer;
use crate::tally::{Check, Tally, count};
use crate::worked::Worked;
use crate::{make, orders, program, stable};
use std::alloc::Global;

// A round under trial, and what the program says of it.
#[derive(Drop)]
pub struct Trial<'a> {
    alloc: Global,
    case: &'a Case,
    ended: Ended,
    draw: &'a mut Draw,
    tally: &'a mut Tally,
}

fn has_ties(case: &Case) -> bool {
    (0..case.places.len()).any(|w| {
        case.applicants.iter().enumerate().any(|(a, applicant)| {
            let points = applicant.points_at(w);
            points.is_some()
                && case
                    .applicants
                    .iter()
                    .take(a)
                    .any(|other| other.points_at(w) == points)
        })
    })
}

impl Trial<'_> {
    fn passed(&mut self, check: Check, ok: bool) -> Result<(), Check> {
        self.tally.passed(check, ok)
    }

    fn settled(&self, case: &Case) -> Result<Ended, Check> {
        Ok(program::settle(self.alloc, case)?.ended)
    }

    fn sort_of_round(&mut self) -> Result<(), Check> {
        count(&mut self.tally.rounds);
        if has_ties(self.case) {
            count(&mut self.tally.ties);
        }
        let mut turned = self.case.clone()?;
        make::turn_lots(&mut turned);
        if self.ended != self.settled(&turned)? {
            count(&mut self.tally.lots_decide);
        }
        Ok(())
    }

    // Each cut is what the words say of the result, and each applicant got the first wish whose cut is reached.
    fn cuts(&mut self, round: Assigned, answer: &Answer) -> Result<(), Check> {
        for (w, cut) in answer.cuts.iter().enumerate() {
            self.passed(Check::Cut, *cut == round.cut_at(w))?;
        }
        for (number, applicant) in round.case.applicants.iter().enumerate() {
            let addressee = Addressee {
                round,
                number,
                applicant,
            };
            self.passed(
                Check::FirstReached,
                addressee.place() == addressee.first_reached(),
            )?;
            let judged = addressee.are_judged_well(self.alloc)?;
            self.passed(Check::LetterJudged, judged)?;
        }
        self.passed(Check::Letters, answer.letters)
    }

    // The program's answer is stable, dearest of all stable assignments, and leaves the same applicants and places as each of them.
    fn search(&mut self, round: Assigned) -> Result<(), Check> {
        self.passed(Check::Stable, round.is_stable())?;
        let found = stable::stable_assignments(self.alloc, round.case)?;
        self.passed(Check::Exists, !found.is_empty())?;
        for other in &found {
            self.passed(Check::Dearest, round.none_dearer_in(other))?;
            self.passed(Check::SameLeft, round.same_are_left_in(other))?;
        }
        self.tally.stable_seen = self.tally.stable_seen.saturating_add(found.len());
        if found.len() > 1 {
            count(&mut self.tally.several);
        }
        Ok(())
    }

    fn other_orders(&mut self) -> Result<(), Check> {
        let ended = self.ended;
        self.passed(Check::Together, ended == orders::together(self.case))?;
        for _ in 0..3 {
            let other = orders::one_by_one(self.case, self.draw);
            self.passed(Check::OneByOne, ended == other)?;
        }
        Ok(())
    }

    // The program asks in the applicants' order, so with other numbers for them it asks in another order.
    fn renumbered(&mut self) -> Result<(), Check> {
        let mut other = self.case.clone()?;
        let mut back = self.ended;
        let applicants = other.applicants.as_mut_slice();
        for a in 0..applicants.len() {
            let b = self.draw.below(applicants.len());
            applicants.swap(a, b);
            back.got.swap(a, b);
        }
        let ok = back == self.settled(&other)?;
        self.passed(Check::Renumbered, ok)
    }

    // With another list an applicant gets nothing that its true list has before what it got with that. In `other` only that list is
    // another one.
    fn other_lists(
        &mut self,
        other: &mut Case,
        a: usize,
        applicant: &Applicant,
    ) -> Result<(), Check> {
        let workshops = other.places.len();
        for _ in 0..6 {
            if let Some(liar) = other.applicants.get_mut(a) {
                make::draw_wishes(&mut liar.wishes, workshops, 6, self.draw)?;
            }
            let w = self.settled(other)?.got.of(a);
            let dearer = applicant.is_dearer(w, self.ended.got.of(a));
            self.passed(Check::OtherList, !dearer)?;
        }
        Ok(())
    }

    // With its list, nobody else gets anything dearer than where it is empty, as it is made in `fewer`.
    fn one_more(&mut self, fewer: &mut Case, a: usize) -> Result<(), Check> {
        if let Some(applicant) = fewer.applicants.get_mut(a) {
            applicant.wishes.clear();
        }
        let ended = self.settled(fewer)?;
        let before = Assigned {
            case: fewer,
            got: &ended.got,
        };
        let ok = before.none_dearer_in(&self.ended.got);
        self.passed(Check::OneMore, ok)
    }

    // All checks, up to the first that is not passed.
    fn run(&mut self, answer: &Answer) -> Result<(), Check> {
        let got = self.ended.got;
        let round = Assigned {
            case: self.case,
            got: &got,
        };
        self.sort_of_round()?;
        self.cuts(round, answer)?;
        self.search(round)?;
        self.other_orders()?;
        for _ in 0..2 {
            self.renumbered()?;
        }
        for (a, applicant) in self.case.applicants.iter().enumerate() {
            let mut other = self.case.clone()?;
            self.other_lists(&mut other, a, applicant)?;
            self.one_more(&mut other, a)?;
        }
        Ok(())
    }
}

// All checks of one round; the first that is not passed.
pub(crate) fn check_round(
    alloc: Global,
    case: &Case,
    draw: &mut Draw,
    tally: &mut Tally,
) -> Result<(), Check> {
    let answer = program::settle(alloc, case)?;
    let mut trial = Trial {
        alloc,
        case,
        ended: answer.ended,
        draw,
        tally,
    };
    trial.run(&answer)
}

// A round of the table: the program says what the table says, and passes all other checks.
pub(crate) fn check_worked_round(
    alloc: Global,
    worked: &Worked,
    draw: &mut Draw,
    tally: &mut Tally,
) -> Result<(), Check> {
    let answer = program::settle(alloc, &worked.case)?;
    tally.passed(Check::WorkedRound, worked.says(&answer))?;
    check_round(alloc, &worked.case, draw, tally)
}

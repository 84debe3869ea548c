// A small round as the trials hold it, and the words of the round over it. Nothing of the crates under trial is used here.
use std::cmp::Reverse;

// The most applicants of a small round.
pub const APPLICANTS: usize = 5;

// What an applicant stands on at a workshop: its points, none where it has no row there, and then its lot, the lower the better.
pub type Standing = (Option<u16>, Reverse<u16>);

#[derive(Clone, Drop)]
pub struct Applicant {
    pub lot: u16,
    // the workshops of its list, the dearest first
    pub wishes: Vec<usize>,
    // by workshop; none where it has no row
    pub points: Vec<Option<u16>>,
}

impl Applicant {
    pub(crate) fn points_at(&self, w: usize) -> Option<u16> {
        self.points.get(w).copied().flatten()
    }

    // Of two applicants the one with the greater standing goes ahead at w.
    pub(crate) fn standing_at(&self, w: usize) -> Standing {
        (self.points_at(w), Reverse(self.lot))
    }

    // Where a workshop stands in its list.
    pub(crate) fn place_of(&self, w: usize) -> Option<usize> {
        self.wishes.iter().position(|v| *v == w)
    }

    // It has listed the workshop and has points there.
    pub(crate) fn wants(&self, w: usize) -> bool {
        self.place_of(w).is_some() && self.points_at(w).is_some()
    }

    // Whether its list has w before `than`, a workshop or none. What the list lacks comes behind all that it has.
    pub(crate) fn is_dearer(&self, w: Option<usize>, than: Option<usize>) -> bool {
        self.dearness_of(w) > self.dearness_of(than)
    }

    fn dearness_of(&self, w: Option<usize>) -> Option<Reverse<usize>> {
        self.place_of(w?).map(Reverse)
    }
}

#[derive(Clone, Drop)]
pub struct Case {
    // at most `APPLICANTS`
    pub applicants: Vec<Applicant>,
    // of each workshop
    pub places: Vec<usize>,
}

impl Case {
    pub(crate) fn places_at(&self, w: usize) -> usize {
        self.places.get(w).copied().unwrap_or(0)
    }
}

// Who got what: each applicant's workshop, or none, as for applicants that the round does not have.
#[derive(Clone, Copy, PartialEq, Eq)]
pub struct Got {
    pub workshops: [Option<usize>; APPLICANTS],
}

impl Got {
    pub(crate) fn nothing() -> Got {
        Got {
            workshops: [None; APPLICANTS],
        }
    }

    pub(crate) fn of(&self, a: usize) -> Option<usize> {
        self.workshops.get(a).copied().flatten()
    }

    pub(crate) fn set(&mut self, a: usize, w: Option<usize>) {
        if let Some(workshop) = self.workshops.get_mut(a) {
            *workshop = w;
        }
    }

    // With two applicants in each other's place.
    pub(crate) fn swap(&mut self, a: usize, b: usize) {
        let (w, v) = (self.of(a), self.of(b));
        self.set(a, v);
        self.set(b, w);
    }

    // How many of the applicants are placed at w.
    pub(crate) fn number_at(&self, w: usize) -> usize {
        self.workshops.iter().fold(0, |number: usize, v| {
            number.saturating_add(usize::from(*v == Some(w)))
        })
    }

    // How many of the applicants are placed.
    pub(crate) fn placed(&self) -> usize {
        self.workshops.iter().flatten().count()
    }
}

// A round, and who got what in it.
#[derive(Clone, Copy)]
pub struct Assigned<'a> {
    pub case: &'a Case,
    pub got: &'a Got,
}

// One of the applicants of an assigned round, to whom a letter goes.
#[derive(Clone, Copy)]
pub struct Addressee<'a> {
    pub round: Assigned<'a>,
    pub number: usize,
    pub applicant: &'a Applicant,
}

impl Addressee<'_> {
    // Where in its list stands what it got.
    pub(crate) fn place(&self) -> Option<usize> {
        self.applicant.place_of(self.round.got.of(self.number)?)
    }
}

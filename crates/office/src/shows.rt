// What a settled round shows.
ghost use Rattle.std.specs.Prelude.{◌≡◌, ◌<◌};
ghost use Rattle.layout.specs.Tables.{applicants as applicants_of};
ghost use Rattle.codec.specs.Rounds.{tables_of};
ghost use Rattle.round.specs.Market.{asks as asks_of, placed as placed_of};
ghost use Rattle.points.specs.Standing.{market};
ghost use Rattle.asking.specs.Ended.{told};
ghost use Rattle.cuts.specs.Promised.{cut_at};
ghost use Rattle.letters.specs.Letter.{place_told};
ghost use Rattle.office.specs.Outcome.{results_of, letter_told};
ghost use Rattle.office.specs.Owned.{tables_owned};
ghost use Rattle.office.specs.Settling.{tables_settled};

use crate::owned::OwnedRound;
use crate::settled::Settled;
use codec::Round;
use cuts::{Cut, cut_of};

impl OwnedRound {
    // The round as the crates below take it.
    pub(crate) fn view(&self) -> Round<'_>
        ensures { tables_of result ≡ tables_owned self.now }
    {
        Round {
            seats: self.seats.as_slice(),
            lots: self.lots.as_slice(),
            starts: self.starts.as_slice(),
            entries: self.entries.as_slice(),
            row_starts: self.row_starts.as_slice(),
            row_applicants: self.row_applicants.as_slice(),
            row_points: self.row_points.as_slice(),
        }
    }
}

impl Settled {
    // The round that was settled.
    pub(crate) fn round(&self) -> Round<'_>
        ensures { tables_of result ≡ tables_settled self.now }
    {
        self.held.view()
    }

    // How many applicants it has.
    pub fn applicants(&self) -> usize
        ensures { result ≡ applicants_of (tables_settled self.now) }
    {
        self.held.lots.len()
    }

    // What each applicant is told: the position in its list of what it got, from 0, or 255 for nothing.
    pub fn results(&self) -> &[u16]
        ensures { result.now ≡ results_of (tables_settled self.now) }
    {
        self.results.as_slice()
    }

    // The position in the applicant's list of what it got, from 0, or nothing.
    pub(crate) fn position(&self, applicant: usize) -> Option<u16>
        requires { applicant < applicants_of (tables_settled self.now) }
        ensures { result ≡ place_told (told (market (tables_settled self.now)) applicant) }
    {
        match self.results()[applicant] {
            255 => None,
            position => Some(position),
        }
    }

    // The number of asks.
    pub fn asks(&self) -> usize
        ensures { result ≡ asks_of (market (tables_settled self.now)) }
    {
        self.asks
    }

    // How many have a place.
    pub fn placed(&self) -> usize
        ensures { result ≡ placed_of (market (tables_settled self.now)) }
    {
        self.placed
    }

    // The cut of a workshop; shut for a number that is none.
    pub fn cut(&self, workshop: usize) -> Cut
        ensures { result ≡ cut_at (tables_settled self.now) workshop }
    {
        let round = self.held.view();
        if workshop >= round.workshops() {
            return Cut::Shut;
        }
        let from = round.seats[workshop] as usize;
        let to = round.seats[workshop + 1] as usize;
        cut_of(&self.benches.as_slice()[from..to], &round)
    }

    // The letter of an applicant; no bytes for a number that is none.
    pub fn letter(&self, applicant: usize) -> &[u8]
        ensures { result.now ≡ letter_told (tables_settled self.now) applicant }
    {
        let round = self.held.view();
        if applicant >= round.applicants() {
            return &[];
        }
        let from = 6 * applicant + 8 * (round.starts[applicant] as usize);
        let to = 6 * (applicant + 1) + 8 * (round.starts[applicant + 1] as usize);
        &self.letters.as_slice()[from..to]
    }
}

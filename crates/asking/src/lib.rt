// Deferred acceptance: applicants ask one after the other until nobody is turned down any more.
#![tactic(auto)]

ghost use Rattle.std.specs.Prelude.{◌≡◌, ℕ, ◌<◌, ◌≤◌, length, take, drop, slice_index};
ghost use Rattle.layout.specs.Slices.{table, over, laid, outcome};
ghost use Rattle.layout.specs.Tables.{applicants, workshops, list_length};
ghost use Rattle.codec.specs.Rounds.{tables_of};
ghost use Rattle.round.specs.Market.{asks, placed, count};
ghost use Rattle.points.specs.Standing.{rows_found, market};
ghost use Rattle.asking.specs.Ended.{told, benches_of, no_room, SameSlices, Fair};
ghost use Rattle.asking.specs.Asking.{Asking, After, Resting, at_rest, but_for, one_more, ends_at, told_from};

use bench::Answer;
use codec::Round;
use layout::{Lent, Refusal};

// How many asks there were, and how many applicants have a place.
#[derive(Clone, Copy, PartialEq, Eq, Debug)]
pub struct Outcome {
    pub asks: usize,
    pub placed: usize,
}

// The slices that asking works on: a row for every list entry, a result for every applicant, and all the benches, one after the
// other. They are lent for a run, as all data of a round lies in lent slices of numbers.
#[derive(Drop)]
pub struct Desk<'a> {
    pub rows: &'a mut [u32],
    pub results: &'a mut [u16],
    pub benches: &'a mut [u32],
}

// The same slices, to be read: what a run left there, once it has ended. A struct of its own, since a shared slice is none to be written.
#[derive(Clone, Copy)]
pub struct Left<'a> {
    pub rows: &'a [u32],
    pub results: &'a [u16],
    pub benches: &'a [u32],
}

impl Desk<'_> {
    // What lies on the desk, to be read.
    pub fn left(&self) -> Left<'_>
        ensures rows { result.rows.now ≡ self.now.rows.now }
        ensures results { result.results.now ≡ self.now.results.now }
        ensures benches { result.benches.now ≡ self.now.benches.now }
    {
        Left {
            rows: self.rows,
            results: self.results,
            benches: self.benches,
        }
    }
}

impl Left<'_> {
    // Whether the slices are long enough for the round; if not, the first that is too short.
    pub fn room(&self, round: &Round) -> Result<(), Refusal>
        ensures { result ≡ outcome (no_room (tables_of round.now) (length self.now.results.now) (length self.now.benches.now) (length self.now.rows.now)) tt }
    {
        if self.results.len() < round.lots.len() {
            return Err(Refusal::NoRoom(Lent::Results));
        }
        if self.benches.len() < round.seats[round.seats.len() - 1] as usize {
            return Err(Refusal::NoRoom(Lent::Benches));
        }
        if self.rows.len() < round.entries.len() {
            return Err(Refusal::NoRoom(Lent::RoundTables));
        }
        Ok(())
    }
}

// Runs a round. It finds the row of every list entry, and lets all applicants ask until nobody is turned down any more. Then the
// desk's `results` have for each applicant the position in its list of what it got, or 255, and its `benches` for each workshop the
// rows of those it keeps, best first. Slices that are too short are refused and stay as they are.
pub fn run(round: &Round, desk: &mut Desk) -> Result<Outcome, Refusal>
    ensures value { result ≡ outcome (no_room (tables_of round.now) (length desk.old.results.now) (length desk.old.benches.now) (length desk.old.rows.now)) (record { asks = asks (market (tables_of round.now)); placed = placed (market (tables_of round.now)) }) }
    ensures rows { desk.new.rows.now ≡ laid result (rows_found (tables_of round.now)) desk.old.rows.now }
    ensures results { desk.new.results.now ≡ laid result (table (told (market (tables_of round.now))) (applicants (tables_of round.now))) desk.old.results.now }
    ensures benches { desk.new.benches.now ≡ laid result (benches_of (tables_of round.now)) desk.old.benches.now }
    ensures same { SameSlices desk.old desk.new }
    ensures fair { Fair (tables_of round.now) }
{
    desk.left().room(round)?;
    points::find_rows(round, desk.rows)?;
    let seats = round.seats[round.seats.len() - 1] as usize;
    desk.results[0..round.lots.len()].fill(0);
    desk.benches[0..seats].fill(u32::MAX);
    let asks = ask_all(round, desk);
    let placed = tell(round, desk.results);
    Ok(Outcome { asks, placed })
}

// Lets all ask, one after the other: each applicant in its turn, and whoever is turned down for it. The number of asks. The loop goes
// over numbers, since a number is who asks; how far each has come stands in the results, and is counted there.
fn ask_all(round: &Round, desk: &mut Desk) -> usize
    requires found { take (length (tables_of round.now).entries) desk.old.rows.now ≡ rows_found (tables_of round.now) }
    requires asking { Asking (tables_of round.now) (at_rest (tables_of round.now) desk.old.results.now) desk.old.results.now desk.old.benches.now }
    requires fresh { (c : ℕ) → c < applicants (tables_of round.now) → slice_index desk.old.results.now c ≡ 0 }
    ensures rested { Resting (tables_of round.now) desk.new.results.now desk.new.benches.now desk.old.results.now desk.old.benches.now (applicants (tables_of round.now)) result }
    ensures rows { desk.new.rows.now ≡ desk.old.rows.now }
    ensures same { SameSlices desk.old desk.new }
{
    let mut asks = 0;
    'applicants: for a in 0..round.lots.len() {
        let mut asker = a;
        while usize::from(desk.results[asker]) < list_len(round, asker) {
            asks += 1;
            let Some(other) = ask_next(round, desk, asker) else {
                continue 'applicants;
            };
            asker = other;
        }
        desk.results[asker] += 1;
    }
    asks
}

// How many entries an applicant's list has.
fn list_len(round: &Round, applicant: usize) -> usize
    requires { applicant < applicants (tables_of round.now) }
    ensures { result ≡ list_length (tables_of round.now) applicant }
{
    (round.starts[applicant + 1] - round.starts[applicant]) as usize
}

// The applicant asks the next workshop of its list. Who has to ask on then, if anybody has.
fn ask_next(round: &Round, desk: &mut Desk, asker: usize) -> Option<usize>
    requires applicant { asker < applicants (tables_of round.now) }
    requires entry { slice_index desk.old.results.now asker < list_length (tables_of round.now) asker }
    requires found { take (length (tables_of round.now).entries) desk.old.rows.now ≡ rows_found (tables_of round.now) }
    requires asking { Asking (tables_of round.now) (but_for (tables_of round.now) desk.old.results.now asker) desk.old.results.now desk.old.benches.now }
    ensures results { desk.new.results.now ≡ one_more desk.old.results.now asker }
    ensures after { After (tables_of round.now) result desk.new.results.now desk.new.benches.now }
    ensures behind { drop (slice_index (tables_of round.now).seats (workshops (tables_of round.now))) desk.new.benches.now ≡ drop (slice_index (tables_of round.now).seats (workshops (tables_of round.now))) desk.old.benches.now }
    ensures rows { desk.new.rows.now ≡ desk.old.rows.now }
    ensures same { SameSlices desk.old desk.new }
{
    let at = round.starts[asker] as usize + usize::from(desk.results[asker]);
    let workshop = usize::from(round.entries[at]);
    let from = round.seats[workshop] as usize;
    let to = round.seats[workshop + 1] as usize;
    desk.results[asker] += 1;
    let row = desk.rows[at];
    match bench::ask(&mut desk.benches[from..to], round, row) {
        Answer::Kept => None,
        Answer::Displaced(row) => Some(usize::from(round.row_applicants[row as usize])),
        Answer::TurnedDown => Some(asker),
    }
}

// What an applicant is told who has no place: results are numbers of a lent slice, so none is one of them.
const NO_PLACE: u16 = 255;

// Writes over how many entries each has asked what it is told: the position of the last of them, or 255 where its list is used up. How
// many have a place.
fn tell(round: &Round, results: &mut [u16]) -> usize
    requires room { applicants (tables_of round.now) ≤ length results.old }
    requires begun { (c : ℕ) → c < applicants (tables_of round.now) → 0 < slice_index results.old c }
    ensures results { results.new ≡ over (table (told_from (tables_of round.now) results.old) (applicants (tables_of round.now))) results.old }
    ensures placed { result ≡ count (ends_at (tables_of round.now) results.old) (applicants (tables_of round.now)) }
{
    let front = &mut results[0..round.lots.len()];
    for (a, told) in front.iter_mut().enumerate() {
        let at = *told - 1;
        let len = list_len(round, a);
        *told = if usize::from(at) < len { at } else { NO_PLACE };
    }
    front.iter().filter(|told| **told != NO_PLACE).count()
}

// Writing the letters of a round that was asked to the end.
ghost use Rattle.std.specs.Prelude.{◌≡◌, ◌+◌, ◌-◌, ◌*◌, ◌<◌, ◌≤◌, length, take, IfOk, None};
ghost use Rattle.std.specs.List.{flat_map};
ghost use Rattle.layout.specs.Slices.{over, laid, outcome};
ghost use Rattle.layout.specs.Tables.{applicants, workshops};
ghost use Rattle.codec.specs.Rounds.{tables_of};
ghost use Rattle.asking.specs.Ended.{no_room};
ghost use Rattle.letters.specs.Letter.{head_bytes, entry_bytes};
ghost use Rattle.letters.specs.Settled.{Settled, Accepted};
ghost use Rattle.letters.specs.Written.{all_seats, CutsTold, entry_with, entries_from, letter_bytes, letter_length, letter_room, all_letters, all_length, letters_room};

use crate::entry::{Entry, Kind};
use asking::Left;
use codec::Round;
use cuts::{Cut, cut_of};
use layout::{Lent, Lot, Points, Refusal};
use points::points_of;

// How many bytes an applicant's letter has; 6, as of an empty list, for a number that is no applicant.
pub fn letter_len(round: &Round, applicant: usize) -> usize
    ensures { result ≡ letter_length (tables_of round.now) applicant }
{
    if applicant >= round.lots.len() {
        return 6;
    }
    6 + 8 * (round.starts[applicant + 1] as usize - round.starts[applicant] as usize)
}

// Writes an applicant's letter to the front of out, and says how many bytes it has. left is what asking to the end left, with the
// rows of all list entries; with it the checker accepts the letter.
pub fn write_letter(
    round: &Round,
    left: Left,
    applicant: usize,
    out: &mut [u8],
) -> Result<usize, Refusal>
    ensures told { result ≡ outcome (letter_room (tables_of round.now) (length left.entry.results.now) (length left.entry.benches.now) (length left.entry.rows.now) applicant (length out.old)) (letter_length (tables_of round.now) applicant) }
    ensures written { out.new ≡ laid result (letter_bytes (tables_of round.now) left.entry.rows.now left.entry.results.now left.entry.benches.now applicant) out.old }
    ensures accepted { Settled (tables_of round.now) left.entry.rows.now left.entry.results.now left.entry.benches.now → IfOk result (λ n. Accepted (take n out.new)) }
{
    if applicant >= round.lots.len() {
        return Err(Refusal::NoRoom(Lent::Results));
    }
    left.room(round)?;
    let len = letter_len(round, applicant);
    if out.len() < len {
        return Err(Refusal::NoRoom(Lent::Letters));
    }
    let cuts = all_cuts(round, left.benches);
    Writer { round, left, cuts }.put_letter(applicant, out);
    Ok(len)
}

// Writes all letters, one after the other.
pub fn write_letters(round: &Round, left: Left, out: &mut [u8]) -> Result<usize, Refusal>
    ensures told { result ≡ outcome (letters_room (tables_of round.now) (length left.entry.results.now) (length left.entry.benches.now) (length left.entry.rows.now) (length out.old)) (all_length (tables_of round.now)) }
    ensures written { out.new ≡ laid result (all_letters (tables_of round.now) left.entry.rows.now left.entry.results.now left.entry.benches.now) out.old }
{
    left.room(round)?;
    let len = 6 * round.lots.len() + 8 * round.entries.len();
    if out.len() < len {
        return Err(Refusal::NoRoom(Lent::Letters));
    }
    let cuts = all_cuts(round, left.benches);
    Writer { round, left, cuts }.put_letters(out);
    Ok(len)
}

// The cuts of all workshops, worked out once for the many entries that name them. The index is that of the window, since nothing is known
// of an array that was written through a zip.
fn all_cuts(round: &Round, benches: &[u32]) -> [Cut; 256]
    requires { all_seats (tables_of round.now) ≤ length benches.now }
    ensures { CutsTold (tables_of round.now) benches.now result }
{
    let mut cuts = [Cut::Open; 256];
    for (w, ends) in round.seats.windows(2).enumerate() {
        cuts[w] = cut_of(&benches[ends[0] as usize..ends[1] as usize], round);
    }
    cuts
}

// The eight bytes of an entry.
fn bytes_of(entry: Entry) -> [u8; 8]
    ensures { result ≡ entry_bytes entry }
{
    let (kind, points, lot) = match entry.cut {
        Cut::Open => (Kind::Open, 0, 0),
        Cut::Full(Points(points), Lot(lot)) => (Kind::Full, points, lot),
        Cut::Shut => (Kind::Shut, 0, 0),
    };
    let [own_low, own_high] = entry.points.0.to_le_bytes();
    let [points_low, points_high] = points.to_le_bytes();
    let [lot_low, lot_high] = lot.to_le_bytes();
    [
        entry.workshop,
        own_low,
        own_high,
        kind as u8,
        points_low,
        points_high,
        lot_low,
        lot_high,
    ]
}

// Lays what stands before the entries over the first five bytes.
fn put_head(applicant: u16, lot: u16, count: u8, part: &mut [u8])
    requires { 5 ≤ length part.old }
    ensures { part.new ≡ over (head_bytes applicant lot count) part.old }
{
    part[0..2].copy_from_slice(&applicant.to_le_bytes());
    part[2..4].copy_from_slice(&lot.to_le_bytes());
    part[4] = count;
}

// What letters are written from: a round, what asking left of it, which is long enough, and the cuts of its workshops.
#[derive(Drop)]
struct Writer<'r, 't, 'l> {
    round: &'r Round<'t>,
    left: Left<'l>,
    cuts: [Cut; 256],
    ghost room: { no_room (tables_of round.now) (length left.results.now) (length left.benches.now) (length left.rows.now) ≡ None },
    ghost told: { CutsTold (tables_of round.now) left.benches.now cuts },
}

impl Writer<'_, '_, '_> {
    // What a letter says of a workshop and of the applicant's row there.
    fn entry(&self, workshop: u16, row: u32) -> Entry
        requires { workshop < workshops (tables_of self.now.round.now) }
        ensures { result ≡ entry_with (tables_of self.now.round.now) self.now.left.benches.now workshop row }
    {
        Entry {
            workshop: workshop as u8,
            points: points_of(self.round, row),
            cut: self.cuts[workshop as usize],
        }
    }

    // Lays the entries from start to end over a part. With a loop over part.chunks_exact_mut(8) the proof doesn't close: it knows
    // nothing of the bytes of a part whose chunks were lent and written.
    fn put_entries(&self, start: usize, end: usize, part: &mut [u8])
        requires ordered { start ≤ end }
        requires within { end ≤ length self.now.round.now.entries.now }
        requires room { 8 * (end - start) ≤ length part.old }
        ensures { part.new ≡ over (flat_map entry_bytes (entries_from (tables_of self.now.round.now) self.now.left.rows.now self.now.left.benches.now start (end - start))) part.old }
    {
        let rows = &self.left.rows[start..end];
        let listed = self.round.entries[start..end].iter().zip(rows);
        for (j, (workshop, row)) in listed.enumerate() {
            part[8 * j..8 * j + 8].copy_from_slice(&bytes_of(self.entry(*workshop, *row)));
        }
    }

    // Lays an applicant's letter over the front of a part.
    fn put_letter(&self, applicant: usize, part: &mut [u8])
        requires applicant { applicant < applicants (tables_of self.now.round.now) }
        requires room { letter_length (tables_of self.now.round.now) applicant ≤ length part.old }
        ensures { part.new ≡ over (letter_bytes (tables_of self.now.round.now) self.now.left.rows.now self.now.left.results.now self.now.left.benches.now applicant) part.old }
    {
        let round = self.round;
        let start = round.starts[applicant] as usize;
        let end = round.starts[applicant + 1] as usize;
        let count = end - start;
        let [place, _] = self.left.results[applicant].to_le_bytes();
        put_head(applicant as u16, round.lots[applicant], count as u8, part);
        self.put_entries(start, end, &mut part[5..]);
        part[5 + 8 * count] = place;
    }

    // Lays all letters over the front of a part. The loop counts applicants, because an applicant's number stands in its letter and
    // is its place in each of the round's tables.
    fn put_letters(&self, part: &mut [u8])
        requires { all_length (tables_of self.now.round.now) ≤ length part.old }
        ensures { part.new ≡ over (all_letters (tables_of self.now.round.now) self.now.left.rows.now self.now.left.results.now self.now.left.benches.now) part.old }
    {
        for a in 0..self.round.lots.len() {
            let at = 6 * a + 8 * (self.round.starts[a] as usize);
            self.put_letter(a, &mut part[at..]);
        }
    }
}

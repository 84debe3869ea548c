// Each list entry's row, found for all entries in one pass: applicants in order, with a cursor for each workshop into its rows, which
// are sorted by applicant. The steps are as many as there are rows and entries.
ghost use Rattle.std.specs.Prelude.{◌≡◌, ℕ, ◌<◌, ◌≤◌, ◌&&◌, length, if◌then◌else◌, ◌==◌, nat_lt, map, slice_index, slice_range, unwrap_or, ◌+◌};
ghost use Rattle.std.specs.List.{prefix_len};
ghost use Rattle.layout.specs.Slices.{laid, outcome};
ghost use Rattle.layout.specs.Bytes.{refuse};
ghost use Rattle.layout.specs.Tables.{workshops, most_workshops};
ghost use Rattle.layout.specs.declared.Refusal.TheVariants.{NoRoom};
ghost use Rattle.layout.specs.declared.Lent.TheVariants.{RoundTables};
ghost use Rattle.codec.specs.Rounds.{tables_of};
ghost use Rattle.points.specs.Standing.{row_of, rows_found, no_row};
ghost use Rattle.points.specs.Cursors.{to_row, applicant_of, Passed};

use codec::{MOST_WORKSHOPS, Round};
use layout::{Lent, Refusal};

// How many rows at the front are of applicants before `applicant`. The numbers are compared in their two bytes: with each widened first,
// finding all rows took 1.16 times the instructions.
fn earlier(row_applicants: &[u16], applicant: u16) -> usize
    ensures { result ≡ prefix_len (λ other. nat_lt other applicant) row_applicants.now }
{
    row_applicants
        .iter()
        .take_while(|other| **other < applicant)
        .count()
}

// An applicant's row at workshop `w`, if there is one, where the cursors have passed only rows of earlier applicants.
fn find_row(round: &Round, passed: &mut [u32], w: usize, applicant: u16) -> Option<u32>
    requires workshop { w < workshops (tables_of round.now) }
    requires long { length passed.old ≡ most_workshops }
    requires before { Passed (tables_of round.now) applicant passed.old }
    ensures row { unwrap_or result no_row ≡ row_of (tables_of round.now) w applicant }
    ensures before { Passed (tables_of round.now) applicant passed.new }
{
    let from = (round.row_starts[w] + passed[w]) as usize;
    let rest = &round.row_applicants[from..round.row_starts[w + 1] as usize];
    let more = earlier(rest, applicant);
    passed[w] += more as u32;
    rest.get(more)
        .is_some_and(|own| *own == applicant)
        .then_some((from + more) as u32)
}

// Writes, for each entry of an applicant's list, the number of its row, or `u32::MAX` where there is none, since rows are numbers of a lent
// slice. The index is counted, because nothing is known of a slice that was written through a zip.
fn find_list(round: &Round, passed: &mut [u32], list: &[u16], applicant: u16, rows: &mut [u32])
    requires named { (k : ℕ) → k < length list.now → slice_index list.now k < workshops (tables_of round.now) }
    requires room { length rows.old ≡ length list.now }
    requires long { length passed.old ≡ most_workshops }
    requires before { Passed (tables_of round.now) applicant passed.old }
    ensures rows { rows.new ≡ map (λ w. row_of (tables_of round.now) w applicant) list.now }
    ensures before { Passed (tables_of round.now) applicant passed.new }
{
    for (k, w) in list.iter().enumerate() {
        rows[k] = find_row(round, passed, usize::from(*w), applicant).unwrap_or(u32::MAX);
    }
}

// Writes, for every list entry of every applicant, the number of its row, or `u32::MAX` where there is none, and gives the number of
// entries. A slice that is too short is refused and stays as it is. The loop goes over the applicants' numbers, which the rows name.
pub fn find_rows(round: &Round, rows: &mut [u32]) -> Result<usize, Refusal>
    ensures rows { rows.new ≡ laid result (rows_found (tables_of round.now)) rows.old }
    ensures outcome { result ≡ outcome (refuse (nat_lt (length rows.old) (length (tables_of round.now).entries)) (NoRoom RoundTables)) (length (tables_of round.now).entries) }
{
    if rows.len() < round.entries.len() {
        return Err(Refusal::NoRoom(Lent::RoundTables));
    }
    let mut passed = [0u32; MOST_WORKSHOPS];
    for applicant in 0..round.lots.len() {
        let from = round.starts[applicant] as usize;
        let to = round.starts[applicant + 1] as usize;
        find_list(
            round,
            &mut passed,
            &round.entries[from..to],
            applicant as u16,
            &mut rows[from..to],
        );
    }
    Ok(round.entries.len())
}

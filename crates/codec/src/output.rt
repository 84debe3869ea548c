// Writing a round out as bytes. Each writer fills the part of the lent bytes that is its own.
ghost use Rattle.std.specs.Prelude.{◌≡◌, ℕ, ◌+◌, ◌*◌, ◌<◌, ◌≤◌, ◌∷◌, ◌++◌, length, take, drop, Ok, nat_lt, slice_index};
ghost use Rattle.layout.specs.Slices.{table, flat, laid, outcome};
ghost use Rattle.layout.specs.Bytes.{refuse, decode};
ghost use Rattle.layout.specs.Tables.{applicants as applicants_of, workshops as workshops_of, rows as rows_of, places_at, list_length};
ghost use Rattle.layout.specs.Encode.{two_bytes, record_bytes, sheet_bytes, encode};
ghost use Rattle.layout.specs.declared.Refusal.TheVariants.{NoRoom};
ghost use Rattle.layout.specs.declared.Lent.TheVariants.{RoundTables};
ghost use Rattle.codec.specs.Puts.{put};
ghost use Rattle.codec.specs.Rounds.{tables_of};

use crate::limits::PLACES_FROM;
use crate::tables::Round;
use layout::{Lent, Refusal};

// A number of two bytes, the low one first.
fn put_word(out: &mut [u8], at: usize, x: u16)
    requires { at + 2 ≤ length out.old }
    ensures { out.new ≡ put at (two_bytes x) out.old }
{
    out[at..at + 2].copy_from_slice(&x.to_le_bytes());
}

// The entries of a list, a byte each. (The index is counted because nothing is known of a slice that was written through a zip.)
fn put_list(list: &[u16], out: &mut [u8])
    requires small { (j : ℕ) → j < length list.now → slice_index list.now j < 256 }
    requires long { length out.old ≡ length list.now }
    ensures { out.new ≡ list.now }
{
    for (j, entry) in list.iter().enumerate() {
        out[j] = *entry as u8;
    }
}

// The places of the workshops.
fn write_places(round: &Round, out: &mut [u8])
    requires { length out.old ≡ workshops_of (tables_of round.now) }
    ensures { out.new ≡ table (places_at (tables_of round.now)) (workshops_of (tables_of round.now)) }
{
    for (w, places) in out.iter_mut().enumerate() {
        *places = (round.seats[w + 1] - round.seats[w]) as u8;
    }
}

// The record of applicant a: its lot, the count of its list, the list.
fn write_record(round: &Round, a: usize, out: &mut [u8])
    requires one { a < applicants_of (tables_of round.now) }
    requires long { length out.old ≡ 3 + list_length (tables_of round.now) a }
    ensures { out.new ≡ record_bytes (tables_of round.now) a }
{
    let list = &round.entries[round.starts[a] as usize..round.starts[a + 1] as usize];
    put_word(out, 0, round.lots[a]);
    out[2] = list.len() as u8;
    put_list(list, &mut out[3..]);
}

// The records of all applicants. (They are of changing length: applicant a's begins behind 3 bytes and the list of each one before.)
fn write_records(round: &Round, out: &mut [u8])
    requires { length out.old ≡ 3 * applicants_of (tables_of round.now) + length (tables_of round.now).entries }
    ensures { out.new ≡ flat (record_bytes (tables_of round.now)) (applicants_of (tables_of round.now)) }
{
    for a in 0..round.applicants() {
        let from = 3 * a + round.starts[a] as usize;
        let to = 3 * (a + 1) + round.starts[a + 1] as usize;
        write_record(round, a, &mut out[from..to]);
    }
}

// A row: workshop, applicant, points.
fn write_row(workshop: u8, applicant: u16, points: u16, out: &mut [u8])
    requires { length out.old ≡ 5 }
    ensures { out.new ≡ workshop ∷ (two_bytes applicant ++ two_bytes points) }
{
    out[0] = workshop;
    put_word(out, 1, applicant);
    put_word(out, 3, points);
}

// The rows of workshop w. (Chunks of five bytes would have no index to count, but nothing is known of a slice that was written in chunks.)
fn write_sheet(round: &Round, w: usize, out: &mut [u8])
    requires one { w < workshops_of (tables_of round.now) }
    requires long { length out.old ≡ length (sheet_bytes (tables_of round.now) w) }
    ensures { out.new ≡ sheet_bytes (tables_of round.now) w }
{
    let from = round.row_starts[w] as usize;
    let to = round.row_starts[w + 1] as usize;
    for (k, applicant) in round.row_applicants[from..to].iter().enumerate() {
        let points = round.row_points[from + k];
        write_row(w as u8, *applicant, points, &mut out[5 * k..5 * k + 5]);
    }
}

// The rows of all workshops, which are of changing number: workshop w's begin behind five bytes for each row before.
fn write_sheets(round: &Round, out: &mut [u8])
    requires { length out.old ≡ 5 * rows_of (tables_of round.now) }
    ensures { out.new ≡ flat (sheet_bytes (tables_of round.now)) (workshops_of (tables_of round.now)) }
{
    for w in 0..round.workshops() {
        let from = 5 * round.row_starts[w] as usize;
        let to = 5 * round.row_starts[w + 1] as usize;
        write_sheet(round, w, &mut out[from..to]);
    }
}

// The bytes of the round, laid over the front of `out`, and how many they are. Where `out` is too short it stays as it was. What is
// written reads back as the same round.
pub fn write(round: &Round, out: &mut [u8]) -> Result<usize, Refusal>
    ensures answer { result ≡ outcome (refuse (nat_lt (length out.old) (length (encode (tables_of round.now)))) (NoRoom RoundTables)) (length (encode (tables_of round.now))) }
    ensures written { out.new ≡ laid result (encode (tables_of round.now)) out.old }
    ensures back { decode (encode (tables_of round.now)) ≡ Ok (tables_of round.now) }
{
    let applicants = round.applicants();
    let workshops = round.workshops();
    let rows = round.row_applicants.len();
    let records_from = PLACES_FROM + workshops;
    let rows_from = records_from + 3 * applicants + round.entries.len();
    let size = rows_from + 2 + 5 * rows;
    if out.len() < size {
        return Err(Refusal::NoRoom(Lent::RoundTables));
    }
    put_word(out, 0, applicants as u16);
    put_word(out, 2, workshops as u16);
    write_places(round, &mut out[PLACES_FROM..records_from]);
    write_records(round, &mut out[records_from..rows_from]);
    put_word(out, rows_from, rows as u16);
    write_sheets(round, &mut out[rows_from + 2..size]);
    Ok(size)
}

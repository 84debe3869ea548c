// The checker of a letter, which needs nothing but the letter.
ghost use Rattle.std.specs.Prelude.{◌≡◌, ◌<◌, ◌≤◌, false, slice_index_or};
ghost use Rattle.layout.specs.Slices.{outcome};
ghost use Rattle.layout.specs.Tables.{most_entries};
ghost use Rattle.layout.specs.Bytes.{byte, word, first_of};
ghost use Rattle.cuts.specs.Cuts.{first_that};
ghost use Rattle.letters.specs.Letter.{count_in, place_at, place_told, entry_at, part_at, entry_in};
ghost use Rattle.letters.specs.Faults.{head_fault, judged, listed_fault, end_fault, reached_in, entry_told};
ghost use Rattle.letters.specs.Exact.{judged_bytes, Exact};

use crate::entry::{Entry, read_entry};
use codec::MOST_ENTRIES;
use cuts::reaches;
use layout::{Lot, Refusal};

// The byte of a letter, and the number of a refusal, that say that no place was got: both are numbers by the format.
const NO_PLACE: usize = 255;

// What a letter that is right says beside its entries: whose it is, the lot, how many entries, and the position in the list that
// was got, if any.
#[derive(Clone, Copy)]
pub struct Verdict {
    pub applicant: u16,
    pub lot: Lot,
    pub entries: usize,
    pub place: Option<usize>,
}

// Reads a letter, and whether its place is the first of the list whose cut is reached. It accepts exactly such letters.
pub fn check_letter(bytes: &[u8]) -> Result<Verdict, Refusal>
    ensures told { result ≡ judged_bytes bytes.now }
    ensures exact { Exact bytes.now result }
{
    judge(bytes)
}

// The parts of a letter in turn: the number of entries, the entries, the place.
fn judge(bytes: &[u8]) -> Result<Verdict, Refusal>
    ensures { result ≡ judged_bytes bytes.now }
{
    let count = read_head(bytes)?;
    let lot = Lot(u16::from_le_bytes([bytes[2], bytes[3]]));
    let first = read_entries(bytes, lot, count)?;
    let place = read_place(bytes, count)?;
    if place != first {
        return Err(Refusal::NotFirst(first.unwrap_or(NO_PLACE)));
    }
    Ok(Verdict {
        applicant: u16::from_le_bytes([bytes[0], bytes[1]]),
        lot,
        entries: count,
        place,
    })
}

// The number of entries.
fn read_head(bytes: &[u8]) -> Result<usize, Refusal>
    ensures read { result ≡ outcome (head_fault bytes.now) (count_in bytes.now) }
{
    let Some(count) = bytes.get(4) else {
        return Err(Refusal::Malformed(bytes.len()));
    };
    if *count > MOST_ENTRIES {
        return Err(Refusal::Malformed(4));
    }
    Ok(usize::from(*count))
}

// The first entry whose cut is reached, once all entries are well formed. The loop counts positions, because a position is what is
// told, and the entry there begins in the middle of the bytes. Which workshops were seen is marked in a fixed array: nothing is
// allocated here. Once an entry is reached, `or_else` doesn't look at the later cuts. With `or` in its place two programs that check
// a full-size round's letters took 1.66 and 1.08 times what they took before a place was an option, and with this 1.24 and 0.48
// times (best times, when they were tried beside each other); where the branches of a loop come to lie makes the rest.
fn read_entries(bytes: &[u8], lot: Lot, count: usize) -> Result<Option<usize>, Refusal>
    requires counted { count ≡ count_in bytes.now }
    requires few { count ≤ most_entries }
    requires drawn { lot.0 ≡ word bytes.now 2 }
    ensures { result ≡ outcome (first_of (listed_fault bytes.now) (count_in bytes.now)) (first_that (reached_in bytes.now) (count_in bytes.now)) }
{
    let mut seen = [false; 256];
    let mut first = None;
    for j in 0..count {
        let entry = read_listed(bytes, j, &seen)?;
        seen[usize::from(entry.workshop)] = true;
        first = first.or_else(move || reaches(entry.points, lot, entry.cut).then_some(j));
    }
    Ok(first)
}

// Entry j, whose workshop is not among those seen.
fn read_listed(bytes: &[u8], j: usize, seen: &[bool; 256]) -> Result<Entry, Refusal>
    requires { j < most_entries }
    ensures { result ≡ outcome (judged (slice_index_or seen.now (byte bytes.now (entry_at j)) false) bytes.now j) (entry_in (part_at bytes.now j)) }
{
    let at = 5 + 8 * j;
    let Some(workshop) = bytes.get(at) else {
        return Err(Refusal::Malformed(bytes.len()));
    };
    if seen[usize::from(*workshop)] {
        return Err(Refusal::Malformed(at));
    }
    read_entry(&bytes[at..]).map_err(|k| Refusal::Malformed(at + k))
}

// The place, behind the entries, with nothing behind it.
fn read_place(bytes: &[u8], count: usize) -> Result<Option<usize>, Refusal>
    requires counted { count ≡ count_in bytes.now }
    requires few { count ≤ most_entries }
    ensures { result ≡ outcome (end_fault bytes.now) (place_told (byte bytes.now (place_at bytes.now))) }
{
    let at = 5 + 8 * count;
    let Some(byte) = bytes.get(at) else {
        return Err(Refusal::Malformed(bytes.len()));
    };
    let place = usize::from(*byte);
    if count <= place && place != NO_PLACE {
        return Err(Refusal::Malformed(at));
    }
    if bytes.len() > at + 1 {
        return Err(Refusal::Malformed(at + 1));
    }
    Ok((place != NO_PLACE).then_some(place))
}

// Entry j of a letter, where it is well formed by itself.
pub fn entry_at(bytes: &[u8], j: usize) -> Option<Entry>
    ensures { result ≡ entry_told bytes.now j }
{
    if j >= MOST_ENTRIES as usize {
        return None;
    }
    read_entry(bytes.get(5 + 8 * j..)?).ok()
}

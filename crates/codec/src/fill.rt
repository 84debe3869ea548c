// Filling lent slices with the tables of a round, from bytes that were judged without a fault.
ghost use Rattle.std.specs.Prelude.{◌≡◌, ◌+◌, ◌-◌, ◌≤◌, length, replicate, IfOk, None};
ghost use Rattle.layout.specs.Slices.{over, table, laid, outcome, or_else};
ghost use Rattle.layout.specs.Bytes.{byte, places_from, seats_before, fault, applicants_in, record_at, lot_in, start_of, entries_below, workshops_in, rows_in, row_at, row_applicant_in, row_points_in, rows_before, sizes_in, tables_in};
ghost use Rattle.layout.specs.Encode.{AsWritten};
ghost use Rattle.codec.specs.Puts.{put};
ghost use Rattle.codec.specs.Spaces.{suffices, no_room, front, Holds, SameSlices};

use crate::bytes::word_in;
use crate::judge::check;
use crate::limits::PLACES_FROM;
use crate::space::Space;
use layout::{Lent, Refusal, Sizes};

// Whether the space suffices for the tables.
fn has_room(sizes: Sizes, space: &Space) -> bool
    ensures { result ≡ suffices sizes space.now }
{
    sizes.workshops < space.seats.len()
        && sizes.applicants <= space.lots.len()
        && sizes.applicants < space.starts.len()
        && sizes.entries <= space.entries.len()
        && sizes.workshops < space.row_starts.len()
        && sizes.rows <= space.row_applicants.len()
        && sizes.rows <= space.row_points.len()
}

// The sums of the places. (The index is counted for the reason that stands at `fill_list`.)
fn fill_seats(bytes: &[u8], workshops: usize, seats: &mut [u32])
    requires few { workshops ≤ 256 }
    requires there { places_from + workshops ≤ length bytes.now }
    requires room { workshops + 1 ≤ length seats.old }
    ensures { seats.new ≡ over (table (seats_before bytes.now) (workshops + 1)) seats.old }
{
    let mut sum: u32 = 0;
    for (w, places) in bytes[PLACES_FROM..PLACES_FROM + workshops]
        .iter()
        .enumerate()
    {
        seats[w] = sum;
        sum += u32::from(*places);
    }
    seats[workshops] = sum;
}

// The entries of a list, of a byte each. (The index is counted because nothing is known of a slice that was written through a zip.)
fn fill_list(list: &[u8], entries: &mut [u16])
    requires { length entries.old ≡ length list.now }
    ensures { entries.new ≡ list.now }
{
    for (j, entry) in list.iter().enumerate() {
        entries[j] = u16::from(*entry);
    }
}

// The lots, the lists and where each list begins. The records begin at `from`, and are of changing length: where the next one begins is
// known when this one's count is read, so no part of the library goes over them.
fn fill_lists(
    bytes: &[u8],
    from: usize,
    applicants: usize,
    lots: &mut [u16],
    starts: &mut [u32],
    entries: &mut [u16],
)
    requires clean { fault bytes.now ≡ None }
    requires place { from ≡ record_at bytes.now 0 }
    requires many { applicants ≡ applicants_in bytes.now }
    requires lot_room { applicants ≤ length lots.old }
    requires start_room { applicants + 1 ≤ length starts.old }
    requires entry_room { start_of bytes.now applicants ≤ length entries.old }
    ensures drawn { lots.new ≡ over (table (lot_in bytes.now) applicants) lots.old }
    ensures started { starts.new ≡ over (table (start_of bytes.now) (applicants + 1)) starts.old }
    ensures listed { entries.new ≡ over (entries_below bytes.now applicants) entries.old }
{
    let mut at = from;
    let mut start: usize = 0;
    for a in 0..applicants {
        let count = usize::from(bytes[at + 2]);
        let next = at + 3 + count;
        lots[a] = word_in(bytes, at);
        starts[a] = start as u32;
        fill_list(&bytes[at + 3..next], &mut entries[start..start + count]);
        start += count;
        at = next;
    }
    starts[applicants] = start as u32;
}

// The workshops from `next` up to `until` have their rows from `row` on.
fn open_sheets(row_starts: &mut [u32], next: usize, until: usize, row: u32)
    requires order { next ≤ until }
    requires room { until ≤ length row_starts.old }
    ensures { row_starts.new ≡ put next (replicate (until - next) row) row_starts.old }
{
    row_starts[next..until].fill(row);
}

// The rows, and where those of each workshop begin. The rows stand from `from` on, five bytes each.
fn fill_rows(
    bytes: &[u8],
    from: usize,
    rows: usize,
    workshops: usize,
    row_starts: &mut [u32],
    row_applicants: &mut [u16],
    row_points: &mut [u16],
)
    requires clean { fault bytes.now ≡ None }
    requires place { from ≡ row_at bytes.now 0 }
    requires many { rows ≡ rows_in bytes.now }
    requires size { workshops ≡ workshops_in bytes.now }
    requires start_room { workshops + 1 ≤ length row_starts.old }
    requires applicant_room { rows ≤ length row_applicants.old }
    requires point_room { rows ≤ length row_points.old }
    ensures sheeted { row_starts.new ≡ over (table (λ w. rows_before bytes.now w rows) (workshops + 1)) row_starts.old }
    ensures rowed { row_applicants.new ≡ over (table (row_applicant_in bytes.now) rows) row_applicants.old }
    ensures pointed { row_points.new ≡ over (table (row_points_in bytes.now) rows) row_points.old }
{
    let mut next: usize = 0;
    for (i, row) in bytes[from..from + 5 * rows].chunks_exact(5).enumerate() {
        let until = usize::from(row[0]) + 1;
        open_sheets(row_starts, next, until, i as u32);
        next = until;
        row_applicants[i] = word_in(row, 1);
        row_points[i] = word_in(row, 3);
    }
    open_sheets(row_starts, next, workshops + 1, rows as u32);
}

// The tables of the round that the bytes are, laid over the front of the slices, or the first fault; slices that are too short come
// after all faults of the bytes. A refusal leaves every slice as it was. The space is of the same slices afterwards, so that whoever
// lent them knows what they hold.
pub fn read(bytes: &[u8], space: &mut Space) -> Result<Sizes, Refusal>
    ensures answer { result ≡ outcome (or_else (fault bytes.now) (no_room (sizes_in bytes.now) space.old)) (sizes_in bytes.now) }
    ensures seated { space.new.seats.now ≡ laid result (tables_in bytes.now).seats space.old.seats.now }
    ensures drawn { space.new.lots.now ≡ laid result (tables_in bytes.now).lots space.old.lots.now }
    ensures started { space.new.starts.now ≡ laid result (tables_in bytes.now).starts space.old.starts.now }
    ensures listed { space.new.entries.now ≡ laid result (tables_in bytes.now).entries space.old.entries.now }
    ensures sheeted { space.new.row_starts.now ≡ laid result (tables_in bytes.now).row_starts space.old.row_starts.now }
    ensures rowed { space.new.row_applicants.now ≡ laid result (tables_in bytes.now).row_applicants space.old.row_applicants.now }
    ensures pointed { space.new.row_points.now ≡ laid result (tables_in bytes.now).row_points space.old.row_points.now }
    ensures written { AsWritten bytes.now }
    ensures ready { IfOk result (λ s. Holds s space.new) }
    ensures whole { IfOk result (λ s. front s space.new ≡ tables_in bytes.now) }
    ensures same_slices { SameSlices space.old space.new }
{
    let sizes = check(bytes)?;
    if !has_room(sizes, space) {
        return Err(Refusal::NoRoom(Lent::RoundTables));
    }
    let Sizes {
        applicants,
        workshops,
        entries: listed,
        rows,
    } = sizes;
    let records_from = PLACES_FROM + workshops;
    let rows_from = records_from + 3 * applicants + listed;
    fill_seats(bytes, workshops, space.seats);
    fill_lists(
        bytes,
        records_from,
        applicants,
        space.lots,
        space.starts,
        space.entries,
    );
    fill_rows(
        bytes,
        rows_from + 2,
        rows,
        workshops,
        space.row_starts,
        space.row_applicants,
        space.row_points,
    );
    Ok(sizes)
}

// The judging of the bytes of a round: the parts of the format in the order in which they stand, and in each the first fault. Nothing
// is written.
ghost use Rattle.std.specs.Prelude.{◌≡◌, ℕ, ◌+◌, ◌*◌, ◌<◌, length, Some, OnOk};
ghost use Rattle.layout.specs.Slices.{outcome};
ghost use Rattle.layout.specs.Bytes.{byte, word, first_of, head_fault, places_from, places_fault, applicants_in, workshops_in, record_at, record_fault, row_at, row_fault, fault, sizes_in};
ghost use Rattle.codec.specs.Readers.{Stands, list_fault_at, count_fault_at, row_fault_at};

use crate::bytes::Reader;
use crate::limits::{
    MOST_APPLICANTS, MOST_ENTRIES, MOST_PLACES, MOST_ROWS, MOST_WORKSHOPS, PLACES_FROM,
};
use layout::{Refusal, Sizes};

// How many applicants and workshops a round has.
#[derive(Clone, Copy)]
struct Head {
    applicants: usize,
    workshops: usize,
}

// A workshop and an applicant: where a row may stand at the earliest.
#[derive(Clone, Copy)]
struct Mark {
    workshop: usize,
    applicant: usize,
}

// The numbers of applicants and of workshops.
fn judge_head(reader: &mut Reader) -> Result<Head, Refusal>
    requires { reader.old.at ≡ 0 }
    ensures answer { result ≡ outcome (head_fault reader.old.bytes.now) (record { applicants = applicants_in reader.old.bytes.now; workshops = workshops_in reader.old.bytes.now }) }
    ensures moved { OnOk result (Stands reader.new reader.old.bytes.now places_from) }
{
    let Some(applicants) = reader.word() else {
        return Err(Refusal::Short(reader.bytes.len()));
    };
    let applicants = usize::from(applicants);
    if applicants > MOST_APPLICANTS {
        return Err(Refusal::BadSize(0));
    }
    let Some(workshops) = reader.word() else {
        return Err(Refusal::Short(reader.bytes.len()));
    };
    let workshops = usize::from(workshops);
    if workshops == 0 || workshops > MOST_WORKSHOPS {
        return Err(Refusal::BadSize(2));
    }
    Ok(Head {
        applicants,
        workshops,
    })
}

// The places of the workshops, a byte each.
fn judge_places(reader: &mut Reader, workshops: usize) -> Result<(), Refusal>
    requires { reader.old.at ≡ places_from }
    ensures answer { result ≡ outcome (first_of (places_fault reader.old.bytes.now) workshops) tt }
    ensures moved { OnOk result (Stands reader.new reader.old.bytes.now (places_from + workshops)) }
{
    for _w in 0..workshops {
        let at = reader.at;
        let Some(places) = reader.byte() else {
            return Err(Refusal::Short(reader.bytes.len()));
        };
        if places > MOST_PLACES {
            return Err(Refusal::BadSize(at));
        }
    }
    Ok(())
}

// The count and the list of a record. A flag for each byte says whether it stands in the list so far, so that each entry is read once.
fn judge_list(reader: &mut Reader, workshops: usize) -> Result<(), Refusal>
    ensures answer { result ≡ outcome (list_fault_at reader.old.bytes.now workshops reader.old.at) tt }
    ensures moved { OnOk result (Stands reader.new reader.old.bytes.now (reader.old.at + 1 + byte reader.old.bytes.now reader.old.at)) }
{
    let at = reader.at;
    let Some(count) = reader.byte() else {
        return Err(Refusal::Short(reader.bytes.len()));
    };
    if count > MOST_ENTRIES {
        return Err(Refusal::LongList(at));
    }
    let mut seen = [false; 256];
    for _j in 0..count {
        let at = reader.at;
        let Some(entry) = reader.byte() else {
            return Err(Refusal::Short(reader.bytes.len()));
        };
        let entry = usize::from(entry);
        if entry >= workshops || seen[entry] {
            return Err(Refusal::BadEntry(at));
        }
        seen[entry] = true;
    }
    Ok(())
}

// The records of the applicants: the lot of each comes before its list. A flag for each lot says whether an applicant has it.
fn judge_records(reader: &mut Reader, head: Head) -> Result<(), Refusal>
    requires place { reader.old.at ≡ record_at reader.old.bytes.now 0 }
    requires size { head.workshops ≡ workshops_in reader.old.bytes.now }
    ensures answer { result ≡ outcome (first_of (record_fault reader.old.bytes.now) head.applicants) tt }
    ensures moved { OnOk result (Stands reader.new reader.old.bytes.now (record_at reader.old.bytes.now head.applicants)) }
{
    let mut seen = [false; 65536];
    for _a in 0..head.applicants {
        let at = reader.at;
        let Some(lot) = reader.word() else {
            return Err(Refusal::Short(reader.bytes.len()));
        };
        let lot = usize::from(lot);
        if seen[lot] {
            return Err(Refusal::LotTaken(at));
        }
        seen[lot] = true;
        judge_list(reader, head.workshops)?;
    }
    Ok(())
}

// The number of rows.
fn judge_row_count(reader: &mut Reader) -> Result<usize, Refusal>
    ensures answer { result ≡ outcome (count_fault_at reader.old.bytes.now reader.old.at) (word reader.old.bytes.now reader.old.at) }
    ensures moved { OnOk result (Stands reader.new reader.old.bytes.now (reader.old.at + 2)) }
{
    let at = reader.at;
    let Some(rows) = reader.word() else {
        return Err(Refusal::Short(reader.bytes.len()));
    };
    let rows = usize::from(rows);
    if rows > MOST_ROWS {
        return Err(Refusal::ManyRows(at));
    }
    Ok(rows)
}

// The fault of a row of which bytes are missing: a number that is there comes before that.
fn judge_cut_row(reader: &mut Reader, head: Head) -> Refusal
    requires cut { length reader.old.bytes.now < reader.old.at + 5 }
    ensures { (w a : ℕ) → row_fault_at reader.old.bytes.now head.applicants head.workshops w a reader.old.at ≡ Some result }
{
    let at = reader.at;
    let Some(workshop) = reader.byte() else {
        return Refusal::Short(reader.bytes.len());
    };
    if usize::from(workshop) >= head.workshops {
        return Refusal::BadRow(at);
    }
    let Some(applicant) = reader.word() else {
        return Refusal::Short(reader.bytes.len());
    };
    if usize::from(applicant) >= head.applicants {
        return Refusal::BadRow(at);
    }
    Refusal::Short(reader.bytes.len())
}

// A row, which may not come before `least`. The next row may not come before the answer. Its five bytes are taken at once: one test for
// them in place of three. The order of two marks is written out: derived, and asked for by `<`, it made the whole program some 4 % slower
// on full-size rounds (3.13 ms for 3.01, 3.20 for 3.06).
fn judge_row(reader: &mut Reader, head: Head, least: Mark) -> Result<Mark, Refusal>
    ensures answer { result ≡ outcome (row_fault_at reader.old.bytes.now head.applicants head.workshops least.workshop least.applicant reader.old.at) (record { workshop = byte reader.old.bytes.now reader.old.at; applicant = word reader.old.bytes.now (reader.old.at + 1) + 1 }) }
    ensures moved { OnOk result (Stands reader.new reader.old.bytes.now (reader.old.at + 5)) }
{
    let at = reader.at;
    let Some((workshop, applicant, points)) = reader.row() else {
        return Err(judge_cut_row(reader, head));
    };
    let workshop = usize::from(workshop);
    let applicant = usize::from(applicant);
    if workshop >= head.workshops || applicant >= head.applicants {
        return Err(Refusal::BadRow(at));
    }
    if points == 0 {
        return Err(Refusal::BadRow(at));
    }
    if workshop < least.workshop || workshop == least.workshop && applicant < least.applicant {
        return Err(Refusal::RowOrder(at));
    }
    Ok(Mark {
        workshop,
        applicant: applicant + 1,
    })
}

// The rows of the point sheets.
fn judge_rows(reader: &mut Reader, head: Head, rows: usize) -> Result<(), Refusal>
    requires place { reader.old.at ≡ row_at reader.old.bytes.now 0 }
    requires many { head.applicants ≡ applicants_in reader.old.bytes.now }
    requires size { head.workshops ≡ workshops_in reader.old.bytes.now }
    ensures answer { result ≡ outcome (first_of (row_fault reader.old.bytes.now) rows) tt }
    ensures moved { OnOk result (Stands reader.new reader.old.bytes.now (row_at reader.old.bytes.now rows)) }
{
    let mut least = Mark {
        workshop: 0,
        applicant: 0,
    };
    for _i in 0..rows {
        least = judge_row(reader, head, least)?;
    }
    Ok(())
}

// The fault of the numbers of applicants and of workshops, if one of them is not there or no round's: what is looked at first, and needs
// no more than the first bytes.
pub fn check_head(bytes: &[u8]) -> Result<(), Refusal>
    ensures { result ≡ outcome (head_fault bytes.now) tt }
{
    judge_head(&mut Reader::new(bytes))?;
    Ok(())
}

// The sizes of the round that the bytes are, or the first fault. Nothing is written.
pub fn check(bytes: &[u8]) -> Result<Sizes, Refusal>
    ensures { result ≡ outcome (fault bytes.now) (sizes_in bytes.now) }
{
    let mut reader = Reader::new(bytes);
    let head = judge_head(&mut reader)?;
    judge_places(&mut reader, head.workshops)?;
    let records_from = reader.at;
    judge_records(&mut reader, head)?;
    let rows_from = reader.at;
    let rows = judge_row_count(&mut reader)?;
    judge_rows(&mut reader, head, rows)?;
    if reader.at < bytes.len() {
        return Err(Refusal::Trailing(reader.at));
    }
    let entries = rows_from - records_from - 3 * head.applicants;
    Ok(Sizes {
        applicants: head.applicants,
        workshops: head.workshops,
        entries,
        rows,
    })
}

// Reading a round into memory of its own.
ghost use Rattle.std.specs.Prelude.{◌≡◌, Ok, Some, MatchResult};
ghost use Rattle.layout.specs.Bytes.{fault, sizes_in, decode};
ghost use Rattle.texts.specs.Faults.{Faulty};
ghost use Rattle.office.specs.Facts.{FaultyUnlessNoMemory};
ghost use Rattle.office.specs.Owned.{tables_owned};

use crate::owned::OwnedRound;
use codec::{MOST_APPLICANTS, MOST_ENTRIES, MOST_ROWS, Space};
use layout::{Refusal, Sizes};
use std::alloc::Global;
use texts::Fault;

// The round that the bytes are, or their fault. Where memory runs out, the bytes are judged all the same: what has a fault is refused.
// They are not judged before any memory is asked for, which would be plainer, since that second judging took 0.4 ms of 3.3 on a full-size
// round.
pub(crate) fn read_owned(heap: Global, bytes: &[u8]) -> Result<OwnedRound, Fault>
    ensures { MatchResult result (λ o. decode bytes.now ≡ Ok (tables_owned o)) (Faulty (fault bytes.now)) }
{
    let read = read_named(heap, bytes);
    if let Err(Fault::NoMemory) = read {
        codec::check(bytes)?;
    }
    read
}

// The sizes that the bytes name. Nobody has judged them yet, but where they are beyond every round's: those are refused here. So no memory
// is asked for that the largest round does not take, and no more records are gone over than it has.
fn sizes_named(bytes: &[u8]) -> Result<Sizes, Refusal>
    ensures { MatchResult result (λ sizes. sizes ≡ sizes_in bytes.now) (λ e. fault bytes.now ≡ Some e) }
{
    codec::check_head(bytes)?;
    let sizes = codec::measure(bytes);
    if sizes.entries > MOST_APPLICANTS * MOST_ENTRIES as usize || sizes.rows > MOST_ROWS {
        return codec::check(bytes);
    }
    Ok(sizes)
}

// Reads a round into memory of the sizes that the bytes name.
fn read_named(heap: Global, bytes: &[u8]) -> Result<OwnedRound, Fault>
    ensures { MatchResult result (λ o. decode bytes.now ≡ Ok (tables_owned o)) (FaultyUnlessNoMemory (fault bytes.now)) }
{
    let Sizes {
        applicants,
        workshops,
        entries: listed,
        rows,
    } = sizes_named(bytes)?;
    let mut seats = vec![in heap; 0u32; workshops + 1]?;
    let mut lots = vec![in heap; 0u16; applicants]?;
    let mut starts = vec![in heap; 0u32; applicants + 1]?;
    let mut entries = vec![in heap; 0u16; listed]?;
    let mut row_starts = vec![in heap; 0u32; workshops + 1]?;
    let mut row_applicants = vec![in heap; 0u16; rows]?;
    let mut row_points = vec![in heap; 0u16; rows]?;
    {
        // each slice has a name of its own first: lent in the literal itself, a Vec is not known afterwards to hold what was read
        let seats = seats.as_mut_slice();
        let lots = lots.as_mut_slice();
        let starts = starts.as_mut_slice();
        let entries = entries.as_mut_slice();
        let row_starts = row_starts.as_mut_slice();
        let row_applicants = row_applicants.as_mut_slice();
        let row_points = row_points.as_mut_slice();
        let mut space = Space {
            seats,
            lots,
            starts,
            entries,
            row_starts,
            row_applicants,
            row_points,
        };
        codec::read(bytes, &mut space)?;
    }
    Ok(OwnedRound {
        seats,
        lots,
        starts,
        entries,
        row_starts,
        row_applicants,
        row_points,
    })
}

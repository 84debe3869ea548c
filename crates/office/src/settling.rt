// From the bytes of a round to who is where, the benches and the letters.
ghost use Rattle.std.specs.Prelude.{◌≡◌, IfOk, Ok, MatchResult};
ghost use Rattle.layout.specs.Bytes.{fault, decode};
ghost use Rattle.layout.specs.Encode.{AsWritten};
ghost use Rattle.texts.specs.Faults.{Faulty};
ghost use Rattle.office.specs.Owned.{tables_owned};
ghost use Rattle.office.specs.Promises.{Promised};
ghost use Rattle.office.specs.Settling.{tables_settled};

use crate::owned::OwnedRound;
use crate::reading::read_owned;
use crate::settled::Settled;
use asking::{Desk, Outcome};
use std::alloc::{AllocError, Global};
use texts::Fault;

// Reads a round, gives out the places, and writes the letters; or says why the bytes are no round. Only of bytes that are a round does
// it say that memory ran out.
pub fn settle(heap: Global, bytes: &[u8]) -> Result<Settled, Fault>
    ensures outcome { MatchResult result (λ s. decode bytes.now ≡ Ok (tables_settled s)) (Faulty (fault bytes.now)) }
    ensures promised { IfOk result (λ s. Promised (tables_settled s)) }
    ensures written { AsWritten bytes.now }
{
    let held = read_owned(heap, bytes)?;
    let settled = settle_held(heap, held)?;
    Ok(settled)
}

// Gives out the places of a round that was read, and writes the letters.
fn settle_held(heap: Global, held: OwnedRound) -> Result<Settled, AllocError>
    ensures { IfOk result (λ s. tables_settled s ≡ tables_owned held) }
{
    let round = held.view();
    let mut rows = vec![in heap; 0u32; round.entries.len()]?;
    let mut results = vec![in heap; 0u16; round.lots.len()]?;
    let mut benches = vec![in heap; 0u32; round.seats[round.seats.len() - 1] as usize]?;
    let mut letters = vec![in heap; 0u8; 6 * round.lots.len() + 8 * round.entries.len()]?;
    let Outcome { asks, placed } = {
        // each slice has a name of its own first, as in reading
        let rows = rows.as_mut_slice();
        let results = results.as_mut_slice();
        let benches = benches.as_mut_slice();
        let mut desk = Desk {
            rows,
            results,
            benches,
        };
        let outcome = asking::run(&round, &mut desk).unwrap();
        letters::write_letters(&round, desk.left(), &mut letters).unwrap();
        outcome
    };
    Ok(Settled {
        held,
        rows,
        results,
        benches,
        letters,
        asks,
        placed,
    })
}

// A settled round: its tables, each list entry's row, what each applicant is told, the benches and the letters, and that they are
// those of the definitions in the type itself. Results are numbers, with 255 for none, as they are lent to be written.
ghost use Rattle.std.specs.Prelude.{◌≡◌};
ghost use Rattle.round.specs.Market.{asks as asks_of, placed as placed_of};
ghost use Rattle.points.specs.Standing.{market, rows_found};
ghost use Rattle.asking.specs.Ended.{benches_of};
ghost use Rattle.office.specs.Outcome.{results_of, letters_of};
ghost use Rattle.office.specs.Owned.{tables_owned};

use crate::owned::OwnedRound;

#[derive(Drop)]
pub struct Settled {
    pub(crate) held: OwnedRound,
    pub(crate) rows: Vec<u32>,
    pub(crate) results: Vec<u16>,
    pub(crate) benches: Vec<u32>,
    pub(crate) letters: Vec<u8>,
    pub(crate) asks: usize,
    pub(crate) placed: usize,
    ghost found: { rows.items ≡ rows_found (tables_owned held) },
    ghost told: { results.items ≡ results_of (tables_owned held) },
    ghost seated: { benches.items ≡ benches_of (tables_owned held) },
    ghost written: { letters.items ≡ letters_of (tables_owned held) },
    ghost asked: { asks ≡ asks_of (market (tables_owned held)) },
    ghost housed: { placed ≡ placed_of (market (tables_owned held)) },
}

// The words of the format: points, lots, the sizes of a round, and why something is refused. Code that reads and writes stands in
// the crate above; what the bytes mean stands in specs/.
#![tactic(auto)]

ghost use Rattle.std.specs.Prelude.{◌≡◌};
ghost use Rattle.layout.specs.Refusals.{number_of, place_of};

mod laws;

pub use laws::{all_as_written, reads_back};

// How many points a workshop gives an applicant.
#[derive(Clone, Copy, PartialEq, Eq, PartialOrd, Ord, Debug)]
pub struct Points(pub u16);

// An applicant's lot: of two with equal points the lower lot goes ahead.
#[derive(Clone, Copy, PartialEq, Eq, PartialOrd, Ord, Debug)]
pub struct Lot(pub u16);

// How many applicants, workshops, list entries and rows a round has.
#[derive(Clone, Copy, PartialEq, Eq, Debug)]
pub struct Sizes {
    pub applicants: usize,
    pub workshops: usize,
    pub entries: usize,
    pub rows: usize,
}

// Which lent slice is too short.
#[derive(Clone, Copy, PartialEq, Eq, Debug)]
pub enum Lent {
    Results,
    Benches,
    Letters,
    RoundTables,
}

// Why a round or a letter is refused, with the place of the fault: mostly the byte at which it stands.
#[derive(Clone, Copy, PartialEq, Eq, Debug)]
pub enum Refusal {
    // the bytes end too early; their length
    Short(usize),
    // too many applicants, no workshop or too many, too many places
    BadSize(usize),
    // a list of too many entries
    LongList(usize),
    // an entry that is no workshop or stands in the list already
    BadEntry(usize),
    // a lot that an earlier applicant has
    LotTaken(usize),
    // too many rows
    ManyRows(usize),
    // a row of no workshop, no applicant or no points
    BadRow(usize),
    // a row that does not come after the one before it
    RowOrder(usize),
    // bytes after the last row
    Trailing(usize),
    // a lent slice is too short
    NoRoom(Lent),
    // a letter that is no letter
    Malformed(usize),
    // a letter whose place is not the first whose cut is reached; the place it should be, or 255 for none, as the table of refusals has it
    NotFirst(usize),
}

impl Refusal {
    // The number that this cause has in the table of refusals.
    pub fn number(&self) -> usize
        ensures { result ≡ number_of self.now }
    {
        match self {
            Refusal::Short(_) => 1,
            Refusal::BadSize(_) => 2,
            Refusal::LongList(_) => 3,
            Refusal::BadEntry(_) => 4,
            Refusal::LotTaken(_) => 5,
            Refusal::ManyRows(_) => 6,
            Refusal::BadRow(_) => 7,
            Refusal::RowOrder(_) => 8,
            Refusal::Trailing(_) => 9,
            Refusal::NoRoom(_) => 10,
            Refusal::Malformed(_) => 11,
            Refusal::NotFirst(_) => 12,
        }
    }

    // Where the fault stands.
    pub fn place(&self) -> usize
        ensures { result ≡ place_of self.now }
    {
        match self {
            Refusal::Short(at)
            | Refusal::BadSize(at)
            | Refusal::LongList(at)
            | Refusal::BadEntry(at)
            | Refusal::LotTaken(at)
            | Refusal::ManyRows(at)
            | Refusal::BadRow(at)
            | Refusal::RowOrder(at)
            | Refusal::Trailing(at)
            | Refusal::Malformed(at)
            | Refusal::NotFirst(at) => *at,
            Refusal::NoRoom(Lent::Results) => 0,
            Refusal::NoRoom(Lent::Benches) => 1,
            Refusal::NoRoom(Lent::Letters) => 2,
            Refusal::NoRoom(Lent::RoundTables) => 3,
        }
    }
}

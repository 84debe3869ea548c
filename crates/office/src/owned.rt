// A round in owned memory: its tables, and that they are proper in the type itself. A vector for each table, since the crates below are
// lent slices of numbers and no structs.
ghost use Rattle.layout.specs.Tables.{tables, Proper, proper_prop};

#[derive(Drop)]
pub struct OwnedRound {
    pub seats: Vec<u32>,
    pub lots: Vec<u16>,
    pub starts: Vec<u32>,
    pub entries: Vec<u16>,
    pub row_starts: Vec<u32>,
    pub row_applicants: Vec<u16>,
    pub row_points: Vec<u16>,
    ghost proper: { Proper (tables seats.items lots.items starts.items entries.items row_starts.items row_applicants.items row_points.items) } by { proper_prop _ },
}

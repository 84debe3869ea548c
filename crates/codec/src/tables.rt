// A round that was read: its tables as shared slices, and that they are proper in the type itself, so that no later function has to
// ask for it. The same seven tables are lent to be written in `Space`, and owned in the office. One generic struct for the three would be
// no plainer: a bound `W: AsSlice<u32>, H: AsSlice<u16>` on whatever takes a round, and `round.seats.as_slice()[w]` at every read.
ghost use Rattle.layout.specs.Tables.{tables, Proper, proper_prop};

#[derive(Clone, Copy)]
pub struct Round<'a> {
    pub seats: &'a [u32],
    pub lots: &'a [u16],
    pub starts: &'a [u32],
    pub entries: &'a [u16],
    pub row_starts: &'a [u32],
    pub row_applicants: &'a [u16],
    pub row_points: &'a [u16],
    ghost proper: { Proper (tables seats.now lots.now starts.now entries.now row_starts.now row_applicants.now row_points.now) } by { proper_prop _ },
}

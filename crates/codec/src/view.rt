// The view of a round over the slices that its tables were read into.
ghost use Rattle.std.specs.Prelude.{◌≡◌};
ghost use Rattle.layout.specs.Tables.{applicants as applicants_of, workshops as workshops_of};
ghost use Rattle.codec.specs.Fronts.{fronts, Ready};
ghost use Rattle.codec.specs.Rounds.{tables_of};

use crate::tables::Round;
use layout::Sizes;

impl<'a> Round<'a> {
    // The round that lies at the front of the slices. Only what was read, or else is proved to be a round, can be viewed: without what
    // is required here the tables would have to be judged once more, and `read` ensures exactly this. Seven slices and no `Space`, so that
    // slices that are shared, and are nobody's to write, can be viewed too.
    pub fn over(
        sizes: Sizes,
        seats: &'a [u32],
        lots: &'a [u16],
        starts: &'a [u32],
        entries: &'a [u16],
        row_starts: &'a [u32],
        row_applicants: &'a [u16],
        row_points: &'a [u16],
    ) -> Round<'a>
        requires { Ready sizes seats.now lots.now starts.now entries.now row_starts.now row_applicants.now row_points.now }
        ensures { tables_of result ≡ fronts sizes seats.now lots.now starts.now entries.now row_starts.now row_applicants.now row_points.now }
    {
        let Sizes {
            applicants,
            workshops,
            entries: listed,
            rows,
        } = sizes;
        Round {
            seats: &seats[0..workshops + 1],
            lots: &lots[0..applicants],
            starts: &starts[0..applicants + 1],
            entries: &entries[0..listed],
            row_starts: &row_starts[0..workshops + 1],
            row_applicants: &row_applicants[0..rows],
            row_points: &row_points[0..rows],
        }
    }

    // How many applicants the round has.
    pub fn applicants(&self) -> usize
        ensures { result ≡ applicants_of (tables_of self.now) }
    {
        self.lots.len()
    }

    // How many workshops the round has.
    pub fn workshops(&self) -> usize
        ensures { result ≡ workshops_of (tables_of self.now) }
    {
        self.seats.len() - 1
    }
}

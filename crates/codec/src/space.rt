// Space that is lent for the tables of a round: a slice for each of the seven tables, since all data of a round lies in lent slices of
// numbers. What is read lies at the front of each.
#[derive(Drop)]
pub struct Space<'a> {
    pub seats: &'a mut [u32],
    pub lots: &'a mut [u16],
    pub starts: &'a mut [u32],
    pub entries: &'a mut [u16],
    pub row_starts: &'a mut [u32],
    pub row_applicants: &'a mut [u16],
    pub row_points: &'a mut [u16],
}

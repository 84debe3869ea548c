// The numbers of the format.

// The most applicants of a round.
pub const MOST_APPLICANTS: usize = 4000;

// The most workshops of a round.
pub const MOST_WORKSHOPS: usize = 256;

// The most places of a workshop.
pub const MOST_PLACES: u8 = 40;

// The most entries of a list.
pub const MOST_ENTRIES: u8 = 20;

// The most rows of a round.
pub const MOST_ROWS: usize = 60000;

// Where the places of the workshops begin.
pub const PLACES_FROM: usize = 4;

// Reading and writing the bytes of a round: `measure` says what to lend, `check_head`, `check` and `read` judge the bytes, `read` fills
// lent slices with the tables, `Round` is the view of tables that are a round, and `write` writes it out again. What the bytes mean stands
// in the specifications of `layout`.
#![tactic(auto)]

mod bytes;
mod fill;
mod judge;
mod limits;
mod measuring;
mod output;
mod space;
mod tables;
mod view;

pub use fill::read;
pub use judge::{check, check_head};
pub use limits::{MOST_APPLICANTS, MOST_ENTRIES, MOST_PLACES, MOST_ROWS, MOST_WORKSHOPS};
pub use measuring::measure;
pub use output::write;
pub use space::Space;
pub use tables::Round;

// Letters: what the office tells each applicant, as bytes, and the checker that reads one alone.
#![tactic(auto)]

mod check;
mod entry;
mod laws;
mod write;

pub use check::{Verdict, check_letter, entry_at};
pub use entry::{Entry, read_entry};
pub use laws::{letters_settled, nothing_else};
pub use write::{letter_len, write_letter, write_letters};

// The printed texts, byte for byte: lines of a round's report, a letter in words, a refusal. And why nothing came out.
#![tactic(auto)]

mod fault;
mod letter_words;
mod lines;
mod refusals;

pub use fault::Fault;
pub use letter_words::explain;
pub use lines::{push_cut, push_head, push_none, push_placed};
pub use refusals::refusal_text;

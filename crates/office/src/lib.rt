// The whole of a round over owned memory: from its bytes to who is where, the cuts and the letters, and what is printed of it.
#![tactic(auto)]

mod laws;
mod owned;
mod printing;
mod reading;
mod settled;
mod settling;
mod shows;

pub use laws::{
    any_order, asking_ends, best_kept, best_stable, checker_exact, first_reached, letters_right,
    one_more, same_left, truthful,
};
pub use printing::report;
pub use settled::Settled;
pub use settling::settle;

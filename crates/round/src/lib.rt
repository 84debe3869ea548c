// What holds of every round, each theorem on the contract of a function. The definitions and statements stand in specs/: Places and
// Promise (a round, what is promised), Market and Laws (the theory, for every way of keeping), ByPoints (points and lots as one),
// Office, Cuts and Rounds (more promises, cuts, the worked rounds).
#![tactic(auto)]

ghost use Rattle.std.specs.Prelude.{◌≡◌};
ghost use Rattle.round.specs.Laws.{SameEnd, EndClosed, FewAsks, EndStable, EndDearest, SameNumbers, OneMore, NotAllGain, NoGain};
ghost use Rattle.round.specs.Places.{keep};

// A small instance: whom a workshop keeps of two, when it has one place.
pub fn keep_of(a: u32, b: u32, pa: u32, pb: u32) -> u32
    ensures { result ≡ keep a b pa pb }
{
    if pa < pb { b } else { a }
}

// The theorems of deferred acceptance at every lawful market: each function's contract is one of them.

// In any order, one by one or in groups, asking ends the same way and with as many asks.
pub fn same_end()
    ensures { SameEnd }
{}

// Asking all together is one of these orders, and it ends with nobody turned down.
pub fn end_closed()
    ensures { EndClosed }
{}

// There are at most as many asks as list entries.
pub fn few_asks()
    ensures { FewAsks }
{}

// The end is stable.
pub fn end_stable()
    ensures { EndStable }
{}

// No stable assignment gives anybody anything dearer than the end does.
pub fn end_dearest()
    ensures { EndDearest }
{}

// All stable assignments place the same applicants, and as many at each workshop.
pub fn same_numbers()
    ensures { SameNumbers }
{}

// One applicant more gets nobody else anything dearer.
pub fn one_more()
    ensures { OneMore }
{}

// Of those who change their lists, not all get something dearer.
pub fn not_all_gain()
    ensures { NotAllGain }
{}

// No list gets anybody anything dearer than its true list.
pub fn no_gain()
    ensures { NoGain }
{}

// What is promised of every round: the given statements and those beyond them.
mod given;

pub use given::{
    all_proper, all_together, any_order, best_stable, by_market, by_points, first_reached,
    has_cuts, more_applicants, not_all_liars_gain, reached_cut, readable, same_left, same_stable,
    steps_end, told_apart, truthful, worked_out,
};

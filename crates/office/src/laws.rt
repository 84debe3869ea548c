// What the office promises of every round that is read, as theorems over bytes: nothing is to be run here.
// That what is read is what the bytes say stands in the crate `layout`.
ghost use Rattle.office.specs.Promises.{BestKept, Ends, AnyOrder, BestStable, SameLeft, FirstReached, LettersRight, OfAllRead, CheckerExact, Truthful, OneMore};

// Each bench holds the best of those who asked and have points there, as many as it has places.
pub fn best_kept()
    ensures { OfAllRead BestKept }
{}

// Asking ends, after at most as many asks as there are list entries.
pub fn asking_ends()
    ensures { OfAllRead Ends }
{}

// In whatever order applicants ask, what they get and the number of asks are the same.
pub fn any_order()
    ensures { OfAllRead AnyOrder }
{}

// What everybody gets is stable, and no stable assignment gives anybody anything dearer.
pub fn best_stable()
    ensures { OfAllRead BestStable }
{}

// Who is left without a place, and how many have each workshop, are the same in every stable assignment.
pub fn same_left()
    ensures { OfAllRead SameLeft }
{}

// The cuts are what they are said to be, and everybody is told the first of its list whose cut it reaches.
pub fn first_reached()
    ensures { OfAllRead FirstReached }
{}

// The checker accepts every letter of a round,
pub fn letters_right()
    ensures { OfAllRead LettersRight }
{}

// and it accepts exactly the letters whose place is the first whose cut is reached.
pub fn checker_exact()
    ensures { CheckerExact }
{}

// No list gets anybody anything that is dearer to it, by its true list, than what its true list gets it.
pub fn truthful()
    ensures { Truthful }
{}

// If somebody who had an empty list sends one, nobody else gets anything dearer.
pub fn one_more()
    ensures { OneMore }
{}

// The given statements and those beyond them, each on a function's contract: what is promised of every round.
ghost use Rattle.round.specs.Cuts.{HasCuts, ReachedCut, FirstReached};
ghost use Rattle.round.specs.Office.{AllTogether, AnyOrder, NotAllLiarsGain, ByPoints, ByMarket, SameStable};
ghost use Rattle.round.specs.Promise.{Ends, BestStable, SameLeft, Truthful, MoreApplicants, Readable};
ghost use Rattle.round.specs.Rounds.{AllProper, WorkedOut, ToldApart};

// After as many steps as there are entries nobody is turned down any more, whatever the lists and points.
pub fn steps_end()
    ensures { Ends }
{}

// The result is stable, and no stable assignment gives anybody a dearer place.
pub fn best_stable()
    ensures { BestStable }
{}

// Who is left without a place, and which places are left free, are the same in every stable assignment.
pub fn same_left()
    ensures { SameLeft }
{}

// No list gets an applicant a place that is dearer to it than what its true list gets.
pub fn truthful()
    ensures { Truthful }
{}

// One applicant more never gets anybody else a dearer place.
pub fn more_applicants()
    ensures { MoreApplicants }
{}

// Nobody gets anything less dear than a place whose cut it reaches.
pub fn readable()
    ensures { Readable }
{}

// All together is one of the orders, and it comes to an end.
pub fn all_together()
    ensures { AllTogether }
{}

// In whatever order applicants ask, what they get and the number of asks are the same.
pub fn any_order()
    ensures { AnyOrder }
{}

// Of any set of applicants that do not write their true lists, not all gain by it.
pub fn not_all_liars_gain()
    ensures { NotAllLiarsGain }
{}

// Worths go by points first and then by the lower lot.
pub fn by_points()
    ensures { ByPoints }
{}

// A proper round is a lawful market, and its steps, result and asks are the market's.
pub fn by_market()
    ensures { ByMarket }
{}

// The stable assignments are the stable states of the market.
pub fn same_stable()
    ensures { SameStable }
{}

// Every round has cuts.
pub fn has_cuts()
    ensures { HasCuts }
{}

// What somebody got is a place whose cut it reaches.
pub fn reached_cut()
    ensures { ReachedCut }
{}

// So it is the first of its list whose cut it reaches.
pub fn first_reached()
    ensures { FirstReached }
{}

// The worked rounds come out as their table says.
pub fn worked_out()
    ensures { WorkedOut }
{}

// Each of them is a proper round.
pub fn all_proper()
    ensures { AllProper }
{}

// And assignments that go another way are told apart from the stable ones.
pub fn told_apart()
    ensures { ToldApart }
{}

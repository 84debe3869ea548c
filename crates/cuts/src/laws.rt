// The theorems of cuts: each function's contract is one of them.
ghost use Rattle.cuts.specs.Promised.{CutsDefined, ToldByCuts};

// The cut of a workshop is open, shut or that of the last who is placed there, as it should be.
pub fn cuts_defined()
    ensures { CutsDefined }
{}

// What an applicant is told is the first of its list whose cut it reaches.
pub fn told_by_cuts()
    ensures { ToldByCuts }
{}

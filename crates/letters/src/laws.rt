// What letters owe, as theorems: nothing is to be run here.
ghost use Rattle.letters.specs.Settled.{LettersSettled, NothingElse};

// The letter that is written once all have asked is the applicant's own, and the checker accepts it.
pub fn letters_settled()
    ensures { LettersSettled }
{}

// A letter tells of nothing but the applicant's number, list, lot, own points and the cuts of the workshops in its list.
pub fn nothing_else()
    ensures { NothingElse }
{}

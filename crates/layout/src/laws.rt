// What reading and writing owe each other, as theorems: nothing is to be run here.
ghost use Rattle.layout.specs.Encode.{AllAsWritten, ReadsBack};

// Bytes are read exactly if they are what a proper round is written as, and as that round; what is refused is no round.
pub fn all_as_written()
    ensures { AllAsWritten }
{}

// A proper round that is written is read as the same round.
pub fn reads_back()
    ensures { ReadsBack }
{}

// What holds of every file, each stated by the contract of a function that does nothing.
ghost use Rattle.swapfile.specs.Theorems.{OneAnswer, SomeAnswer, ReadsBack, HeadingTells};

// No bytes have two answers.
pub fn one_answer()
    ensures { OneAnswer }
{}

// The one answer to the encodings of a lawful file is what its records say.
pub fn reads_back()
    ensures { ReadsBack }
{}

// Every string of bytes has an answer.
pub fn some_answer()
    ensures { SomeAnswer }
{}

// With a heading in front and without, a file says the same but for the number.
pub fn heading_tells()
    ensures { HeadingTells }
{}

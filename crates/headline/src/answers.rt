//! Laws of what servers answer clients that wait, at the whole machine beside a cell.

ghost use Rattle.headline.specs.Answers.{AnswersAreSo, MutatesAreOfPushedData};

/// What an event of a server says to a client that waits is so at the machine, which may take a look or a measure for it.
pub fn answers_are_so()
    ensures { AnswersAreSo }
{}

/// Each Mutate that was sent is of data that its client pushed.
pub fn mutates_are_of_pushed_data()
    ensures { MutatesAreOfPushedData }
{}

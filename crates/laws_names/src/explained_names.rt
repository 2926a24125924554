//! Laws of the names of each world that is reached with kept clocks.

ghost use Rattle.laws_names.specs.ExplainedNames.{NameCallsCameToTheirAnswer, NamesAreExplained, NamesInTheLogAreExplained};

/// The names and files of a master that is up are those of a run of the machine that shows the world's name calls and answers.
pub fn names_are_explained()
    ensures { NamesAreExplained }
{}

/// So are those of its log, for each way to decide what of it is under way, also while the master is down.
pub fn names_in_the_log_are_explained()
    ensures { NamesInTheLogAreExplained }
{}

/// Each name call that was answered came to its answer at one moment of the call, or was answered Unknown or NoMemory.
pub fn name_calls_came_to_their_answer()
    ensures { NameCallsCameToTheirAnswer }
{}

//! Laws of writes in each run of the machine, in the words of calls and answers.

ghost use Rattle.promises.specs.Promises.{InEachRun, AnsweredWritesStand, OwnWritesAreRead, WritesAreRead};

/// Each part of a write that was answered stands in its chunk of the descriptor's file.
pub fn answered_writes_stand()
    ensures { InEachRun AnsweredWritesStand }
{}

/// A later read that begins no later than a part of a write and whose answer reaches past it shows it, until a later mutation covers some of it; that of another client, where it names a round no earlier than the part's.
pub fn writes_are_read()
    ensures any { InEachRun WritesAreRead }
    ensures own { InEachRun OwnWritesAreRead }
{}

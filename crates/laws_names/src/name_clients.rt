//! Laws of what clients see: the master and the machine stay alike, and what was told stays an outcome.

ghost use Rattle.laws_names.specs.NameClients.{AnswersEndCalls, CallsBegin, MomentsPass, NameCallsMayGiveUp, ToldAnswersAreAllowed};

/// A call begins where none is open, under a number that no answer has.
pub fn calls_begin()
    ensures { CallsBegin }
{}

/// A call is answered, and its locks go back.
pub fn answers_end_calls()
    ensures { AnswersEndCalls }
{}

/// A name call may be answered with what its client was told of it, and with Unknown.
pub fn told_answers_are_allowed()
    ensures told { ToldAnswersAreAllowed }
    ensures unknown { NameCallsMayGiveUp }
{}

/// The clock goes on.
pub fn moments_pass()
    ensures { MomentsPass }
{}

//! A law of a client's step while its name call is open.

ghost use Rattle.laws_names.specs.NameAnswers.{NameCallsAreAnsweredAsTold, NameCallsBegin};

/// The call stays open, or it is answered with what came under its number, or with Unknown when the clock bound is past its last deadline.
pub fn name_calls_are_answered_as_told()
    ensures begins { NameCallsBegin }
    ensures answered { NameCallsAreAnsweredAsTold }
{}

//! A law of each event: calls, deliveries, losses, repeats, ticks, restarts, stops in a step, refused memory and rot.

ghost use Rattle.laws_base.specs.Answers.{CallsAreAnsweredOnce};

/// While a client stays up, a call of it is open from the event in which it is taken to the one in which it is answered, and
/// nothing else is answered.
pub fn calls_are_answered_once()
    ensures { CallsAreAnsweredOnce }
{}

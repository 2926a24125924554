//! A law of every lawful list of events from a new cell: calls, deliveries, losses, repeats, ticks, restarts, stops in a step, refused memory and rot.

ghost use Rattle.laws_base.specs.AnsweredAttempts.{AnsweredAttemptsArePlacedNoMore};

/// Once a server told a client a Done of its data, or refused them for another reason than NoLease, nothing is numbered any more for that attempt.
pub fn answered_attempts_are_placed_no_more()
    ensures { AnsweredAttemptsArePlacedNoMore }
{}

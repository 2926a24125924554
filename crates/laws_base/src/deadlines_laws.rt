//! Laws of every lawful list of events from a new cell: calls, deliveries, losses, repeats, ticks, restarts, stops in a step, refused memory and rot.

ghost use Rattle.laws_base.specs.Deadlines.{AttemptsArePlacedBeforeTheirDeadline, OverAttemptsArePlacedNoMore};

/// A mutation is numbered only before the deadline of the Mutate that asks for it, by its primary's clock; where clocks are kept, the greatest moment is then below that deadline and the clock bound.
pub fn attempts_are_placed_before_their_deadline()
    ensures { AttemptsArePlacedBeforeTheirDeadline }
{}

/// Where clocks are kept, nothing is numbered any more for a Mutate whose deadline and the clock bound are past, whatever was lost, is repeated or comes late.
pub fn over_attempts_are_placed_no_more()
    ensures { OverAttemptsArePlacedNoMore }
{}

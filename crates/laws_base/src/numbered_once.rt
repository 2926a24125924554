//! Laws of every lawful list of events from a new cell: calls, deliveries, losses, repeats, ticks, restarts, stops in a step, refused memory and rot.

ghost use Rattle.laws_base.specs.NumberedOnce.{NumbersArePlacedOnce};

/// A client's number is placed at most once under a version of a chunk: after a server has numbered a mutation of these data under it, no server does so again, whatever is repeated, and over stops and restarts.
pub fn numbers_are_placed_once()
    ensures { NumbersArePlacedOnce }
{}

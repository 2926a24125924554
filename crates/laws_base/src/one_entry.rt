//! A law of every lawful list of events from a new cell: calls, deliveries, losses, repeats, ticks, restarts, stops in a step, refused memory and rot.

ghost use Rattle.laws_base.specs.OneEntry.{NumbersHaveOneEntry};

/// A client's number has at most one entry in each chunk's order, whatever is repeated, also where the chunk was copied.
pub fn numbers_have_one_entry()
    ensures { NumbersHaveOneEntry }
{}

//! Laws of every lawful list of events from a new cell: calls, deliveries, losses, repeats, ticks, restarts, stops in a step, refused memory and rot.

ghost use Rattle.laws_base.specs.Entries.{NumberedMutationsWereAskedFor};

/// A server numbers a mutation only as it takes the Mutate that the client of the data sent, under a lease of that version which counts, where the number is new; what it places are data that this client pushed under this number, or a pad of an append.
pub fn numbered_mutations_were_asked_for()
    ensures { NumberedMutationsWereAskedFor }
{}

//! Laws of every lawful list of events from a new cell: calls, deliveries, losses, repeats, ticks, restarts, stops in a step, refused memory and rot.

ghost use Rattle.laws_machine.specs.OpenCalls.{EntriesAreOfOpenCalls, EntriesWereAskedForInTheirCall};

/// Where clocks are kept, a mutation is numbered only for the open call of its client, by an attempt of that call.
pub fn entries_are_of_open_calls()
    ensures { EntriesAreOfOpenCalls }
{}

/// Where clocks are kept, each entry of a chunk's order was asked for in the call whose entry it is, for a part of it.
pub fn entries_were_asked_for_in_their_call()
    ensures { EntriesWereAskedForInTheirCall }
{}

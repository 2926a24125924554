//! A law of every lawful list of events from a new cell: calls, deliveries, losses, repeats, ticks, restarts, stops in a step, refused memory and rot.

ghost use Rattle.laws_base.specs.BoundedEntries.{AttemptsBoundEntries};

/// In each chunk's order a part of a call gets at most as many entries as its client has attempts, and one where it has none; of an append those don't count to which ChunkFull was answered.
pub fn attempts_bound_entries()
    ensures { AttemptsBoundEntries }
{}

//! A law of every lawful list of events from a new cell: calls, deliveries, losses, repeats, ticks, restarts, stops in a step, refused memory and rot.

ghost use Rattle.laws_machine.specs.FullBefore.{AsksPastAChunkFindItFull};

/// Where clocks are kept, a client asks for a chunk past one, to append to it, only where it was told that one of this index of the file, and its order has an entry that ends at the chunk's end.
pub fn asks_past_a_chunk_find_it_full()
    ensures { AsksPastAChunkFindItFull }
{}

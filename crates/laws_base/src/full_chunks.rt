//! Laws of every lawful list of events from a new cell: calls, deliveries, losses, repeats, ticks, restarts, stops in a step, refused memory and rot.

ghost use Rattle.laws_base.specs.FullChunks.{FullNumbersHavePadsAlone, AttemptsBoundPlacedEntries};

/// An entry of a client's number under which ChunkFull was sent to it is a pad.
pub fn full_numbers_have_pads_alone()
    ensures { FullNumbersHavePadsAlone }
{}

/// In each chunk's order a part of a call gets at most as many entries that are no pads as its client has attempts, and one where it has none.
pub fn attempts_bound_placed_entries()
    ensures { AttemptsBoundPlacedEntries }
{}

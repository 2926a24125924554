//! A law of every lawful list of events from a new cell: calls, deliveries, losses, repeats, ticks, restarts, stops in a step, refused memory and rot.

ghost use Rattle.laws_base.specs.PlacedEntries.{EntriesLieWithinTheChunk};

/// Each entry of a chunk's order lies within a size with which some chunk was granted under the entry's round, and within the settings'; a pad begins in it, and ends where it ends.
pub fn entries_lie_within_the_chunk()
    ensures { EntriesLieWithinTheChunk }
{}

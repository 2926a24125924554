//! A law of every lawful list of events from a new cell: calls, deliveries, losses, repeats, ticks, restarts, stops in a step, refused memory and rot.

ghost use Rattle.laws_base.specs.ToldFullChunks.{FullChunksAreToldAsFull};

/// ChunkFull is told only of data whose Mutate a primary took while its own replica of the chunk was full, or of which its step places a pad there, where nothing hinders it.
pub fn full_chunks_are_told_as_full()
    ensures { FullChunksAreToldAsFull }
{}

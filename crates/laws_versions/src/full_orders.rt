//! A law of every lawful list of events from a new cell: calls, deliveries, losses, repeats, ticks, restarts, stops in a step, refused memory and rot.

ghost use Rattle.laws_versions.specs.FullOrders.{FullChunksHaveAFullOrder};

/// Where clocks are kept, ChunkFull is told only of data whose chunk has an entry in its order that ends at the chunk's end.
pub fn full_chunks_have_a_full_order()
    ensures { FullChunksHaveAFullOrder }
{}

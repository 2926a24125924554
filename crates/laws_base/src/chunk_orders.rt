//! Laws of every lawful list of events from a new cell: calls, deliveries, losses, repeats, ticks, restarts, stops in a step, refused memory and rot.

ghost use Rattle.laws_base.specs.ChunkOrders.{EntriesWereNumbered, EntriesStemFromMutates};

/// Each entry of a chunk's order was numbered in a step of a server, as its client's last call then, under this chunk or one of which it is a copy.
pub fn entries_were_numbered()
    ensures { EntriesWereNumbered }
{}

/// For each entry of a chunk's order its client sent a Mutate of its number and its round, for this chunk or one of which it is a copy; and what is placed are the data that this client pushed under this number, or a pad of an append.
pub fn entries_stem_from_mutates()
    ensures { EntriesStemFromMutates }
{}

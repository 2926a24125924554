//! Laws of the chunks that are added for what clients ask.

ghost use Rattle.headline.specs.AskedChunks.{AsksAddTheNextChunk, AskedChunksMayBeAdded, AsksComeFromClients, AsksAreFull, AddedChunksAreAskedFor};

/// An Ask adds the next chunk of its file, or none.
pub fn asks_add_the_next_chunk()
    ensures { AsksAddTheNextChunk }
{}

/// A call that asked for the next chunk of a file may have it at the machine, where the file is not collected and, for an append, its last chunk is full.
pub fn asked_chunks_may_be_added()
    ensures { AskedChunksMayBeAdded }
{}

/// Each Ask is a client's.
pub fn asks_come_from_clients()
    ensures { AsksComeFromClients }
{}

/// Where a client asked for a chunk past one, to append to it, that one is full at the machine.
pub fn asks_are_full()
    ensures { AsksAreFull }
{}

/// Each chunk that a step of the master adds is asked for, from each machine to which the one beside the world leads.
pub fn added_chunks_are_asked_for()
    ensures { AddedChunksAreAskedFor }
{}

//! Laws of the machine's chunks beside a cell, from each world to the next.

ghost use Rattle.laws_machine.specs.ChunksBeside.{MastersEventsKeepChunksBeside, NewChunksAreBeside, OtherEventsKeepChunksBeside, SameFilesKeepChunksBeside};

/// A new machine's chunks are those of a new cell: none.
pub fn new_chunks_are_beside()
    ensures { NewChunksAreBeside }
{}

/// What the machine does that leaves its files keeps them so.
pub fn same_files_keep_chunks_beside()
    ensures { SameFilesKeepChunksBeside }
{}

/// So does an event of a server or a client, at which the machine places and settles what is seen, where what may be numbered is for open calls.
pub fn other_events_keep_chunks_beside()
    ensures { OtherEventsKeepChunksBeside }
{}

/// So does an event of the master, where the machine followed its log and holders may go on.
pub fn masters_events_keep_chunks_beside()
    ensures { MastersEventsKeepChunksBeside }
{}

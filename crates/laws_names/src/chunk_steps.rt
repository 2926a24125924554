//! Laws of what the master does with messages about chunks.

ghost use Rattle.laws_names.specs.ChunkSteps.{ChunkMessagesChangeNoNames};

/// An Ask, and what servers tell the master, need no action of the machine by names: it is beside the master still.
pub fn chunk_messages_change_no_names()
    ensures { ChunkMessagesChangeNoNames }
{}

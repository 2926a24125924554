//! Laws of what a location that was told stands for at the whole machine.

ghost use Rattle.laws_machine.specs.ToldHolders.{AnswersShowTheChunk, HoldersAreSeen, LoggedChunksAreLastRounds, ToldChunksStand};

/// What a server has under a version up to which its handle stands for the chunk is seen of the chunk.
pub fn holders_are_seen()
    ensures { HoldersAreSeen }
{}

/// A chunk of a file in the log may be told, in the round that its row grants.
pub fn logged_chunks_are_last_rounds()
    ensures { LoggedChunksAreLastRounds }
{}

/// An answer to a client's reading that is so at the server shows what is seen of the chunk.
pub fn answers_show_the_chunk()
    ensures { AnswersShowTheChunk }
{}

/// What is told in an event with a granted round stands for the file's chunk before it, up to each version.
pub fn told_chunks_stand()
    ensures { ToldChunksStand }
{}

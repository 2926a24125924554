//! Laws of what servers read of a chunk, by another order that agrees with its own.

ghost use Rattle.laws_machine.specs.ChunkReadings.{ReadingsAreOfTheChunk, SelectionsGoByRounds};

/// A selection up to a round is one of each order with the same entries up to it.
pub fn selections_go_by_rounds()
    ensures { SelectionsGoByRounds }
{}

/// What a server reads of a replica is of a selection of each order that has the chunk's entries up to the replica's version.
pub fn readings_are_of_the_chunk()
    ensures { ReadingsAreOfTheChunk }
{}

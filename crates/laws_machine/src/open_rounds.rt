//! Laws of the rounds that are open at the machine beside a cell.

ghost use Rattle.laws_machine.specs.OpenRounds.{ChunksOfOneOwnerStandOnce, CountingRoundsAreOpen, RoundsAreOpenAtTheirPlace, RoundsGoWithLeases};

/// From one world to the next the round of each lease that isn't over is open, where rounds end only of chunks whose leases are over, and what is granted has its round open.
pub fn rounds_go_with_leases()
    ensures { RoundsGoWithLeases }
{}

/// So the round under which a server may number a mutation is open.
pub fn counting_rounds_are_open()
    ensures { CountingRoundsAreOpen }
{}

/// A chunk of one owner stands at one place at most.
pub fn chunks_of_one_owner_stand_once()
    ensures { ChunksOfOneOwnerStandOnce }
{}

/// A round of a chunk that stands at one place alone is open there, or its lease is over.
pub fn rounds_are_open_at_their_place()
    ensures { RoundsAreOpenAtTheirPlace }
{}

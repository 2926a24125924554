//! Laws of holders that were told, over an event of the master.

ghost use Rattle.headline.specs.HoldersGoOn.{HoldersGoOn, NewGrantsAreApart, ToldChunksStandAfter};

/// Holders that were told may go on over each event after which chunks are alike again, where rounds ended only of chunks whose leases are over, orders stay, and no handle is used again.
pub fn holders_may_go_on()
    ensures { HoldersGoOn }
{}

/// What is granted at an event is apart from what was told before.
pub fn new_grants_are_apart()
    ensures { NewGrantsAreApart }
{}

/// What is told at an event stands at its place after it.
pub fn told_chunks_stand_after()
    ensures { ToldChunksStandAfter }
{}

//! Laws of every lawful list of events from a new cell: calls, deliveries, losses, repeats, ticks, restarts, stops in a step, refused memory and rot.

ghost use Rattle.laws_machine.specs.OrderedHolders.{ToldHoldersWereOrdered, ToldHoldersStandForTheChunk};

/// Each holder that a location names was ordered to have that version of the chunk, or to clone it.
pub fn told_holders_were_ordered()
    ensures { ToldHoldersWereOrdered }
{}

/// Where clocks are kept, the order of a chunk that was told with a granted round is, up to the version of each holder that was told, that of the chunk that stands at its place in the file, whichever copies took the place since.
pub fn told_holders_stand_for_the_chunk()
    ensures { ToldHoldersStandForTheChunk }
{}

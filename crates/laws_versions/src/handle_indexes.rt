//! Laws of every lawful list of events from a new cell: calls, deliveries, losses, repeats, ticks, restarts, stops in a step, refused memory and rot.

ghost use Rattle.laws_versions.specs.HandleIndexes.{HandlesStandAtOneIndex, HandlesKeepTheirIndex, CopiesStandAtTheirSourcesIndex, EntriesStandAtTheirToldIndex};

/// A handle stands at one index in all files.
pub fn handles_stand_at_one_index()
    ensures { HandlesStandAtOneIndex }
{}

/// Where a handle stood at a master that was up, at that index it stands in all files for all time.
pub fn handles_keep_their_index()
    ensures { HandlesKeepTheirIndex }
{}

/// A copy stands, for all time, at the index at which its source stood.
pub fn copies_stand_at_their_sources_index()
    ensures { CopiesStandAtTheirSourcesIndex }
{}

/// Where clocks are kept, an entry's chunk stands at the index for which the chunk that the entry's Mutate names was told with a granted round.
pub fn entries_stand_at_their_told_index()
    ensures { EntriesStandAtTheirToldIndex }
{}

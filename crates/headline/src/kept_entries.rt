//! Where a handle stood whose chunk has its order no more, its place may be forgotten.

ghost use Rattle.headline.specs.KeptEntries.{EntriesAreSameOrNot};

/// Two orders are the same or not.
pub fn entries_are_same_or_not()
    ensures { EntriesAreSameOrNot }
{}

//! Laws of every lawful list of events from a new cell: restarts, stops in a step, losses, repeats, refused memory and rot.

ghost use Rattle.laws_versions.specs.CopiedEntries.{RaisesGoAboveTheirBase, CopiesGoAboveTheirSource, CopiesHaveTheirSourcesEntries};

/// Each order that raises replicas gives a version above the one that it replaces.
pub fn raises_go_above_their_base()
    ensures { RaisesGoAboveTheirBase }
{}

/// Each order to copy a replica on the same disk gives the copy a version above the one that it copies.
pub fn copies_go_above_their_source()
    ensures { CopiesGoAboveTheirSource }
{}

/// Where clocks are kept, the copy's order has each entry of its source up to the version that is copied, at its place.
pub fn copies_have_their_sources_entries()
    ensures { CopiesHaveTheirSourcesEntries }
{}

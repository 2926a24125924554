//! Laws of what a version that the master gives follows, in every lawful list of events from a new cell: restarts, stops in a step, losses, repeats, refused memory and rot.

ghost use Rattle.laws_versions.specs.AskedVersions.{EntriesLieBelowGivenVersions, LeasesBelowAreOver};

/// Where clocks are kept, each lease of a version below one that an order gives is over, from the moment the order is sent.
pub fn leases_below_are_over()
    ensures { LeasesBelowAreOver }
{}

/// The round of an entry was granted to its chunk, or lies below each version of the chunk that an order gives.
pub fn entries_lie_below_given_versions()
    ensures { EntriesLieBelowGivenVersions }
{}

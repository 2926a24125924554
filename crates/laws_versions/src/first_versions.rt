//! The law of the orders that make a replica anew, in every lawful list of events from a new cell: restarts, stops in a step, losses, repeats, refused memory and rot.

ghost use Rattle.laws_versions.specs.FirstVersions.{FirstVersionsSkipNoEntry, FirstVersionsSkipNoGrant};

/// No version below the one with which a Create or a CopyLocal makes a replica was granted of its chunk, nor will be.
pub fn first_versions_skip_no_grant()
    ensures { FirstVersionsSkipNoGrant }
{}

/// Nothing is numbered under a version below the one with which a Create or a CopyLocal that was sent makes a replica of the chunk.
pub fn first_versions_skip_no_entry()
    ensures { FirstVersionsSkipNoEntry }
{}

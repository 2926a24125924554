//! Laws of the orders that raise a replica to a version, in every lawful list of events from a new cell: restarts, stops in a step, losses, repeats, refused memory and rot.

ghost use Rattle.laws_versions.specs.RaisedVersions.{RaisesSkipNoEntry, RaisesSkipNoGrant};

/// No version between the two of a SetVersion was granted, nor will be.
pub fn raises_skip_no_grant()
    ensures { RaisesSkipNoGrant }
{}

/// Nothing is numbered under a version between the two of a SetVersion that was sent.
pub fn raises_skip_no_entry()
    ensures { RaisesSkipNoEntry }
{}

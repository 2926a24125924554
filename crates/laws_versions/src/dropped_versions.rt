//! Laws of the versions that servers are told to drop, in every lawful list of events from a new cell: restarts, stops in a step, losses, repeats, refused memory and rot.

ghost use Rattle.laws_versions.specs.DroppedVersions.{DroppedVersionsAreOutdated};

/// The version that a Drop names is below the granted one of its chunk, in the log and at a master that is up, or its handle is of no chunk any more.
pub fn dropped_versions_are_outdated()
    ensures { DroppedVersionsAreOutdated }
{}

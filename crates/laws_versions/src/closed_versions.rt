//! Laws of versions that are closed, in every lawful list of events from a new cell: restarts, stops in a step, losses, repeats, refused memory and rot.

ghost use Rattle.laws_versions.specs.ClosedVersions.{ClosedVersionsStayClosed};

/// Once the lease of a version has ended at a master that is up, or its number was given up, its lease is over in all that follows, as long as clocks are kept: over restarts, stops, losses and repeats.
pub fn closed_versions_stay_closed()
    ensures { ClosedVersionsStayClosed }
{}

//! Laws of snapshots that are taken and hidden files that expire.

ghost use Rattle.laws_names.specs.UnaskedSteps.{ExpirationsAreFollowed, SnapshotsAreFollowed};

/// The machine follows a snapshot that the master takes, and what the master answers is an outcome of the call.
pub fn snapshots_are_followed()
    ensures { SnapshotsAreFollowed }
{}

/// The machine collects the hidden files that expire at the master.
pub fn expirations_are_followed()
    ensures { ExpirationsAreFollowed }
{}

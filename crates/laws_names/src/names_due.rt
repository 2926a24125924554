//! Laws of what the master does on the names unasked, in each reached world.

ghost use Rattle.laws_names.specs.NamesDue.{ExpiringFilesAreOld, WaitingSnapshotsAreUnrefused};

/// The names of a master that is up refuse no snapshot that waits, and no two of these have locks that conflict.
pub fn waiting_snapshots_are_unrefused()
    ensures { WaitingSnapshotsAreUnrefused }
{}

/// The files that expire at a tick stand under hidden names alone that were kept long enough.
pub fn expiring_files_are_old()
    ensures { ExpiringFilesAreOld }
{}

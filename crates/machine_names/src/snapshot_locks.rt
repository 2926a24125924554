//! Laws of a snapshot that waits under its locks: what others do to the names makes the names refuse it no more.

ghost use Rattle.machine_names.specs.SnapshotLocks.{CallsLeaveSnapshotsUnrefused, CollectionsLeaveSnapshotsUnrefused};

/// A call that takes effect without a conflict leaves a snapshot that the names don't refuse unrefused.
pub fn calls_leave_snapshots_unrefused()
    ensures { CallsLeaveSnapshotsUnrefused }
{}

/// So does a file that is collected.
pub fn collections_leave_snapshots_unrefused()
    ensures { CollectionsLeaveSnapshotsUnrefused }
{}

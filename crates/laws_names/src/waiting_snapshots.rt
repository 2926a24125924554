//! Laws of the snapshots that wait at the master.

ghost use Rattle.laws_names.specs.WaitingSnapshots.{StepsLeaveSnapshotsUnrefused};

/// Each step of the master leaves the snapshots that wait unrefused by the names.
pub fn steps_leave_snapshots_unrefused()
    ensures { StepsLeaveSnapshotsUnrefused }
{}

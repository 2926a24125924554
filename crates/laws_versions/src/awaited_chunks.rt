//! Laws of the snapshots that wait at the master, in every lawful list of events from a new cell: restarts, stops in a step, losses, repeats, refused memory and rot.

ghost use Rattle.laws_versions.specs.AwaitedChunks.{AwaitedChunksAreNotTried, WaitingSnapshotsAreAlone};

/// While a snapshot waits at the master, no version of its chunks is attempted and no copy is under way for its files: neither those that stood as it began nor later ones.
pub fn waiting_snapshots_are_alone()
    ensures { WaitingSnapshotsAreAlone }
{}

/// Of a chunk for which the master says that a snapshot waits no version is attempted, so that none is granted.
pub fn awaited_chunks_are_not_tried()
    ensures { AwaitedChunksAreNotTried }
{}

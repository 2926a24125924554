//! Laws of every lawful list of events from a new cell: restarts, stops in a step, losses, repeats, refused memory and rot.

ghost use Rattle.laws_versions.specs.StoredChanges.{ReplicasAreReadAsStored, ReadsAreAsStored, PutsAreStored, WritesAreStored, RotLeavesWhatWasStored};

/// Where disks are kept, the whole of a replica is read as it was stored, and so it is copied on its disk.
pub fn replicas_are_read_as_stored()
    ensures { ReplicasAreReadAsStored }
{}

/// Where disks are kept, what is read of a range of a replica is what was stored there.
pub fn reads_are_as_stored()
    ensures { ReadsAreAsStored }
{}

/// What is put in a replica is what was stored there.
pub fn puts_are_stored()
    ensures { PutsAreStored }
{}

/// Where disks are kept, a write that a replica's blocks allow leaves stored what was stored before, with its bytes in their place.
pub fn writes_are_stored()
    ensures { WritesAreStored }
{}

/// A byte that rots leaves what was stored, as far as disks are kept.
pub fn rot_leaves_what_was_stored()
    ensures { RotLeavesWhatWasStored }
{}

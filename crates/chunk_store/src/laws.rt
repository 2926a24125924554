//! What stops leave of a store.

ghost use Rattle.std.specs.Prelude.{◌≡◌, ℕ, false, List};
ghost use Rattle.disk_redo.specs.GateMoments.{LeavesOnly, OnlyReads};
ghost use Rattle.replica_store.specs.declared.change.StoreChange.{StoreChange};
ghost use Rattle.replica_store.specs.Replicas.{ServerDisk, disk_changed, new_server_disk};
ghost use Rattle.store_disk.specs.Formats.{is_head_open};
ghost use Rattle.chunk_store.specs.Opening.{HoldsReplicas, IsOpening};
ghost use Rattle.chunk_store.specs.Stops.{ReopensEither};
ghost use Rattle.chunk_store.specs.Stores.{IsOpen, LeavesChange, StoreState};

use disk::Disk;

/// Whenever a store's disk stops, what is opened again holds what it held before the call or after it. A new disk holds no replicas, an open store's disk what it says, and a stop leaves that of reads and of openings; of a change it leaves the one or the other. What a stop left is what the next opening begins with, so this goes on over any number of calls and stops.
pub fn stops_leave_before_or_after<D: Disk>()
    ensures fresh { (chunk block slots : ℕ) (bytes : List ℕ) → is_head_open bytes ≡ false → HoldsReplicas chunk block slots bytes (new_server_disk chunk block slots) }
    ensures opening { (chunk block slots : ℕ) (old new : D) (d : ServerDisk) → HoldsReplicas chunk block slots (D.seen old) d → ((c : List ℕ) → D.may_leave old c → HoldsReplicas chunk block slots c d)
        → LeavesOnly D.moment D.left_since old new (IsOpening chunk block slots (D.seen old) (D.may_leave old)) → LeavesOnly D.moment D.left_since old new (λ c. HoldsReplicas chunk block slots c d) }
    ensures open { (store : StoreState D) (d : ServerDisk) → IsOpen D.seen D.may_leave store d → (c : List ℕ) → D.may_leave store.disk c → HoldsReplicas store.layout.chunk store.layout.block store.layout.slots c d }
    ensures read { (store : StoreState D) (new : D) (d : ServerDisk) → IsOpen D.seen D.may_leave store d → OnlyReads D.seen D.may_leave D.moment D.left_since store.disk new
        → LeavesOnly D.moment D.left_since store.disk new (λ c. HoldsReplicas store.layout.chunk store.layout.block store.layout.slots c d) }
    ensures change { (old new : StoreState D) (d : ServerDisk) (change : StoreChange) → IsOpen D.seen D.may_leave old d → LeavesChange D.seen D.moment D.left_since old new change
        → ReopensEither D.seen D.moment D.left_since old.layout.chunk old.layout.block old.layout.slots old.disk new.disk d (disk_changed d change) }
{}

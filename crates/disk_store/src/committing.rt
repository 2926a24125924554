//! Changes that a server commits.

ghost use Rattle.std.specs.Prelude.{◌≡◌, ◌⊎◌, true, false, [], ◌∷◌, IfErr, OnOk, Some};
ghost use Rattle.replica_store.specs.Replicas.{ServerDisk, disk_changed, is_disk_full};
ghost use Rattle.replica_store.specs.declared.fault.ReplicaStoreFault.TheVariants as faults;
ghost use Rattle.store_changes.specs.declared.fault.StoreFault.TheVariants as making_faults;
ghost use Rattle.disk_store.specs.Faults.{HasCauseOf, of_change};
ghost use Rattle.replica_store.specs.Stores.{IsCopyable};
ghost use Rattle.disk_store.specs.Standing.{IsKept, IsUnfit, changes_of, writes};
ghost use Rattle.disk_store.specs.declared.standing.DiskStoreState.TheVariants.{Open, Unread, Changing};

use crate::faults::fault_of;
use crate::known::Known;
use crate::making::{begins, make};
use crate::standing::{DiskStoreState, refused};
use chunk_store::Store;
use disk::Disk;
use replica_store::change::StoreChange;
use replica_store::fault::ReplicaStoreFault;
use std::alloc::Global;
use store_changes::StoreFault as MakeFault;

fn writes(change: &StoreChange) -> bool
    ensures { result ≡ writes change.now }
{
    match change {
        StoreChange::Write { .. } | StoreChange::Zero { .. } => true,
        StoreChange::SetOrder(_)
        | StoreChange::Put { .. }
        | StoreChange::Raise { .. }
        | StoreChange::Copy { .. }
        | StoreChange::Remove(_)
        | StoreChange::Rot { .. } => false,
    }
}

// Where a change failed: one over a range that can't be written over wasn't begun, each other one may be on its way.
fn failed(fault: MakeFault, change: StoreChange) -> (ReplicaStoreFault, DiskStoreState)
    ensures unfit { fault ≡ making_faults.Corrupt → writes change ≡ true → result ≡ (faults.NoRoom, Unread (Some change)) }
    ensures begun { (fault ≡ making_faults.Corrupt → writes change ≡ false) → result ≡ (of_change fault, Changing change) }
{
    let MakeFault::Corrupt = fault else {
        return (fault_of(fault), DiskStoreState::Changing(change));
    };
    if writes(&change) {
        return (
            ReplicaStoreFault::NoRoom,
            refused(DiskStoreState::Open, change),
        );
    }
    (fault_of(fault), DiskStoreState::Changing(change))
}

/// Makes a change of the disk and of what is known of it. An error comes with the standing that has it under way: a change that was
/// refused wasn't begun.
pub fn commit<D: Disk>(
    alloc: Global,
    store: &mut Store<D>,
    known: &mut Known,
    standing: DiskStoreState,
    change: StoreChange,
) -> Result<(), (ReplicaStoreFault, DiskStoreState)>
    requires kept { (d : ServerDisk) × IsKept D.seen D.may_leave store.old known.old.order known.old.rows d standing }
    requires nothing { changes_of standing ≡ [] }
    ensures ok { (d : ServerDisk) → IsKept D.seen D.may_leave store.old known.old.order known.old.rows d standing
        → OnOk result (IsKept D.seen D.may_leave store.new known.new.order known.new.rows (disk_changed d change) Open) }
    ensures open { IfErr result (λ e. changes_of e.1 ≡ change ∷ []) }
    ensures err { (d : ServerDisk) → IsKept D.seen D.may_leave store.old known.old.order known.old.rows d standing
        → IfErr result (λ e. IsKept D.seen D.may_leave store.new known.new.order known.new.rows d e.1) }
    // A change began where the store was open; a copy's bytes match their digests.
    ensures cause { (d : ServerDisk) → IsKept D.seen D.may_leave store.old known.old.order known.old.rows d standing
        → HasCauseOf ((standing ≡ Open) × IsCopyable d change) (D.failed store.old.disk) (D.failed store.new.disk) result }
    ensures no_room { (d : ServerDisk) → IsKept D.seen D.may_leave store.old known.old.order known.old.rows d standing
        → IfErr result (λ e. e.0 ≡ faults.NoRoom → IsUnfit store.old.layout.chunk known.old.rows d change ⊎ (is_disk_full store.old.layout.slots d ≡ true)) }
{
    let chunk = store.chunk();
    match begins(chunk, known, &standing, &change) {
        Ok(()) => {}
        Err(fault) => return Err((fault, refused(standing, change))),
    }
    match make(alloc, store, known, &change) {
        Ok(()) => {}
        Err(fault) => return Err(failed(fault, change)),
    }
    match known.make(chunk, &change) {
        Ok(()) => Ok(()),
        Err(_) => Err((
            ReplicaStoreFault::NoMemory,
            DiskStoreState::Changing(change),
        )),
    }
}

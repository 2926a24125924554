//! Blocks that are checked.

ghost use Rattle.std.specs.Prelude.{◌≡◌, ◌<◌, ◌↔◌, IfOk, IsErrOf, Some, true};
ghost use Rattle.disk_redo.specs.GateMoments.{OnlyReads};
ghost use Rattle.replica_store.specs.declared.row.Row.{Row};
ghost use Rattle.replica_store.specs.Replicas.{ServerDisk, is_copyable_at, is_writable_at, read_at, row_at};
ghost use Rattle.replica_store.specs.declared.fault.ReplicaStoreFault.TheVariants as faults;
ghost use Rattle.chunk_store.specs.Stores.{IsOpen};
ghost use Rattle.disk_store.specs.Faults.{HasCause};

use crate::faults::{fault_of, fault_of_disk};
use bytes::Bytes;
use chunk_store::Store;
use disk::Disk;
use gfs_types::ids::{Handle, Version};
use replica_store::fault::ReplicaStoreFault;
use std::alloc::Global;
use store_changes::StoreFault as ChangeFault;

/// Whether the range from `offset` to before `end` of a replica can be written over.
pub fn is_writable<D: Disk>(
    alloc: Global,
    store: &mut Store<D>,
    handle: Handle,
    offset: u64,
    end: u64,
) -> Result<bool, ReplicaStoreFault>
    requires is_open { store.old.is_open ≡ true }
    ensures value { (d : ServerDisk) → IsOpen D.seen D.may_leave store.old d → IfOk result (λ b. b ≡ is_writable_at d handle.0 offset end) }
    ensures still_open { (d : ServerDisk) → IsOpen D.seen D.may_leave store.old d → IsOpen D.seen D.may_leave store.new d }
    ensures unchanged { store.new ≡ record store.old { disk = store.new.disk } }
    // A range that isn't empty ends past the chunk of a replica that is there.
    ensures no_room { (d : ServerDisk) → IsOpen D.seen D.may_leave store.old d
        → (IsErrOf result faults.NoRoom ↔ (row : Row) × (row_at d handle.0 ≡ Some row) × (offset < end) × (store.old.layout.chunk < end)) }
    ensures cause { HasCause (D.failed store.old.disk) (D.failed store.new.disk) result }
{
    let Some(found) = store.held(handle) else {
        return Ok(true);
    };
    let _slot = found.slot;
    if end <= offset {
        return Ok(true);
    }
    if end > u64::from(store.chunk()) {
        return Err(ReplicaStoreFault::NoRoom);
    }
    match store.is_writable(alloc, handle, offset, end) {
        Ok(is) => Ok(is),
        Err(fault) => Err(fault_of_disk(fault)),
    }
}

/// Whether every block of the bytes of a replica of this version matches its digest.
pub fn is_copyable<D: Disk>(
    alloc: Global,
    store: &mut Store<D>,
    handle: Handle,
    version: Version,
) -> Result<bool, ReplicaStoreFault>
    requires is_open { store.old.is_open ≡ true }
    ensures value { (d : ServerDisk) → IsOpen D.seen D.may_leave store.old d → IfOk result (λ b. b ≡ is_copyable_at d handle.0) }
    ensures still_open { (d : ServerDisk) → IsOpen D.seen D.may_leave store.old d → IsOpen D.seen D.may_leave store.new d }
    ensures unchanged { store.new ≡ record store.old { disk = store.new.disk } }
    ensures no_room { IsErrOf result faults.NoRoom → ⊥ }
    // Of a replica of this version.
    ensures cause { (d : ServerDisk) (row : Row) → IsOpen D.seen D.may_leave store.old d → row_at d handle.0 ≡ Some row → row.version ≡ version
        → HasCause (D.failed store.old.disk) (D.failed store.new.disk) result }
{
    match store.image(alloc, handle, version) {
        Ok(_) => Ok(true),
        Err(fault) => match fault {
            ChangeFault::Corrupt => Ok(false),
            other => Err(fault_of(other)),
        },
    }
}

/// Bytes of a replica of this version. `None` where a block that the read touches doesn't match its digest.
pub fn read<D: Disk>(
    alloc: Global,
    store: &mut Store<D>,
    handle: Handle,
    version: Version,
    offset: u64,
    count: u64,
) -> Result<Option<Bytes>, ReplicaStoreFault>
    requires is_open { store.old.is_open ≡ true }
    ensures value { (d : ServerDisk) → IsOpen D.seen D.may_leave store.old d → IfOk result (λ o. o ≡ read_at d handle.0 offset count) }
    ensures still_open { (d : ServerDisk) → IsOpen D.seen D.may_leave store.old d → IsOpen D.seen D.may_leave store.new d }
    ensures unchanged { store.new ≡ record store.old { disk = store.new.disk } }
    ensures no_room { IsErrOf result faults.NoRoom → ⊥ }
    // Of a replica of this version.
    ensures cause { (d : ServerDisk) (row : Row) → IsOpen D.seen D.may_leave store.old d → row_at d handle.0 ≡ Some row → row.version ≡ version
        → HasCause (D.failed store.old.disk) (D.failed store.new.disk) result }
{
    match store.read(alloc, handle, version, offset, count) {
        Ok(bytes) => Ok(Some(bytes)),
        Err(fault) => match fault {
            ChangeFault::Corrupt => Ok(None),
            other => Err(fault_of(other)),
        },
    }
}

//! Changes of the store on the disk.

ghost use Rattle.std.specs.Prelude.{◌≡◌, ◌≤◌, ◌+◌, length, replicate, false, true, IfOk, IsErrOf, OnOk};
ghost use Rattle.disk_redo.specs.GateMoments.{OnlyReads};
ghost use Rattle.replica_store.specs.Replicas.{ServerDisk, disk_changed, is_copyable_at, is_disk_full, is_writable_at};
ghost use Rattle.replica_store.specs.declared.change.StoreChange.TheVariants.{Copy, Raise, Write, Zero};
ghost use Rattle.disk_store.specs.Faults.{IsFitting};
ghost use Rattle.disk_store.specs.Known.{IsKnownOf, can_be_made};
ghost use Rattle.replica_store.specs.Stores.{IsCopyable};
ghost use Rattle.replica_store.specs.declared.fault.ReplicaStoreFault.TheVariants as faults;
ghost use Rattle.store_changes.specs.Faults.{MayFail};
ghost use Rattle.store_changes.specs.declared.fault.StoreFault.TheVariants as making_faults;
ghost use Rattle.disk_store.specs.Careful.{IsCareful};
ghost use Rattle.chunk_store.specs.Stores.{IsOpen};
ghost use Rattle.disk_store.specs.Standing.{LeavesMade, writes};
ghost use Rattle.disk_store.specs.declared.standing.DiskStoreState.TheVariants.{Open};

use crate::known::Known;
use crate::standing::DiskStoreState;
use bytes::Bytes;
use chunk_store::Store;
use disk::Disk;
use gfs_types::ids::{Handle, Serial, Version};
use gfs_types::mutation::Mutation;
use replica_store::change::StoreChange;
use replica_store::fault::ReplicaStoreFault;
use std::alloc::{AllocError, Global};
use store_changes::StoreFault as MakeFault;

/// A change is begun where the store is open and the change can be made. An error: it wasn't begun.
pub(crate) fn begins(
    chunk: u32,
    known: &Known,
    standing: &DiskStoreState,
    change: &StoreChange,
) -> Result<(), ReplicaStoreFault>
    ensures open { OnOk result (standing.now ≡ Open) }
    ensures told { OnOk result (can_be_made chunk known.now.rows change.now ≡ true) }
    ensures no_room { IsErrOf result faults.NoRoom → (standing.now ≡ Open) × (can_be_made chunk known.now.rows change.now ≡ false) }
    ensures closed { IsErrOf result faults.DiskFailed → standing.now ≡ Open → ⊥ }
    ensures memory { IsErrOf result faults.NoMemory → ⊥ }
    ensures undamaged { IsErrOf result faults.Damaged → ⊥ }
{
    let DiskStoreState::Open = standing else {
        return Err(ReplicaStoreFault::DiskFailed);
    };
    if known.can_be_made(chunk, change) {
        Ok(())
    } else {
        Err(ReplicaStoreFault::NoRoom)
    }
}

/// Makes a change that can be made. A range of which a part of a block stays that doesn't match is only looked at.
pub(crate) fn make<D: Disk>(
    alloc: Global,
    store: &mut Store<D>,
    known: &Known,
    change: &StoreChange,
) -> Result<(), MakeFault>
    requires is_open { store.old.is_open ≡ true }
    requires told { can_be_made store.old.layout.chunk known.now.rows change.now ≡ true }
    ensures ok { (d : ServerDisk) → IsOpen D.seen D.may_leave store.old d → OnOk result (IsOpen D.seen D.may_leave store.new (disk_changed d change.now)) }
    ensures careful { (d : ServerDisk) → IsOpen D.seen D.may_leave store.old d → OnOk result (IsCareful store.old.layout.chunk d change.now) }
    ensures unfit { (d : ServerDisk) → IsOpen D.seen D.may_leave store.old d → IsErrOf result making_faults.Corrupt → writes change.now ≡ true
        → (IsCareful store.old.layout.chunk d change.now → ⊥) × IsOpen D.seen D.may_leave store.new d }
    ensures untouched { (d : ServerDisk) → IsOpen D.seen D.may_leave store.old d → (IsCareful store.old.layout.chunk d change.now → ⊥)
        → OnlyReads D.seen D.may_leave D.moment D.left_since store.old.disk store.new.disk }
    ensures any_moment { LeavesMade D.seen D.may_leave D.moment D.left_since store.old store.new change.now }
    ensures layout { store.new.layout ≡ store.old.layout }
    ensures no_room { (d : ServerDisk) → IsOpen D.seen D.may_leave store.old d → IsErrOf result making_faults.NoRoom → is_disk_full store.old.layout.slots d ≡ true }
    ensures cause { MayFail (D.failed store.old.disk) (D.failed store.new.disk) result }
    // A copy's bytes match their digests.
    ensures only { (d : ServerDisk) → IsOpen D.seen D.may_leave store.old d → IsKnownOf known.now.order known.now.rows d → IsCopyable d change.now → IsFitting change.now result }
{
    match change {
        StoreChange::SetOrder(order) => store.set_order(alloc, *order),
        StoreChange::Put {
            handle,
            version,
            serial,
            bytes,
        } => store.install(alloc, *handle, *version, *serial, bytes),
        StoreChange::Write {
            handle,
            serial,
            offset,
            bytes,
        } => write(alloc, store, known, *handle, *serial, *offset, bytes),
        StoreChange::Zero {
            handle,
            serial,
            offset,
            count,
        } => zero(alloc, store, known, *handle, *serial, *offset, *count),
        StoreChange::Raise { handle, version } => raise(alloc, store, known, *handle, *version),
        StoreChange::Copy {
            handle,
            copy: other,
            version,
        } => copy(alloc, store, known, *handle, *other, *version),
        StoreChange::Remove(handle) => store.drop_replica(alloc, *handle),
        StoreChange::Rot {
            handle,
            place,
            byte,
        } => store.rot(alloc, *handle, *place, *byte),
    }
}

// The mutation of this serial puts these bytes there.
fn write<D: Disk>(
    alloc: Global,
    store: &mut Store<D>,
    known: &Known,
    handle: Handle,
    serial: Serial,
    offset: u64,
    bytes: &Bytes,
) -> Result<(), MakeFault>
    requires is_open { store.old.is_open ≡ true }
    requires within { offset + length bytes.now ≤ store.old.layout.chunk }
    ensures ok { (d : ServerDisk) → IsOpen D.seen D.may_leave store.old d → OnOk result (IsOpen D.seen D.may_leave store.new (disk_changed d (Write handle serial offset bytes.now))) }
    ensures writable { (d : ServerDisk) → IsOpen D.seen D.may_leave store.old d → OnOk result (is_writable_at d handle.0 offset (offset + length bytes.now) ≡ true) }
    ensures corrupt { (d : ServerDisk) → IsOpen D.seen D.may_leave store.old d → IsErrOf result making_faults.Corrupt
        → (is_writable_at d handle.0 offset (offset + length bytes.now) ≡ false) × IsOpen D.seen D.may_leave store.new d }
    ensures untouched { (d : ServerDisk) → IsOpen D.seen D.may_leave store.old d → is_writable_at d handle.0 offset (offset + length bytes.now) ≡ false
        → OnlyReads D.seen D.may_leave D.moment D.left_since store.old.disk store.new.disk }
    ensures any_moment { LeavesMade D.seen D.may_leave D.moment D.left_since store.old store.new (Write handle serial offset bytes.now) }
    ensures layout { store.new.layout ≡ store.old.layout }
    ensures no_room { IsErrOf result making_faults.NoRoom → ⊥ }
    ensures cause { MayFail (D.failed store.old.disk) (D.failed store.new.disk) result }
    ensures only { (d : ServerDisk) → IsOpen D.seen D.may_leave store.old d → IsKnownOf known.now.order known.now.rows d
        → can_be_made store.old.layout.chunk known.now.rows (Write handle serial offset bytes.now) ≡ true → IsFitting (Write handle serial offset bytes.now) result }
{
    let Some(row) = known.row(handle) else {
        return Err(MakeFault::NoChunk);
    };
    let mutation = Mutation::Write(offset, bytes.clone()?);
    store.apply(alloc, handle, row.version, serial, &mutation)
}

// The mutation of this serial puts so many zeros there.
fn zero<D: Disk>(
    alloc: Global,
    store: &mut Store<D>,
    known: &Known,
    handle: Handle,
    serial: Serial,
    offset: u64,
    count: u64,
) -> Result<(), MakeFault>
    requires is_open { store.old.is_open ≡ true }
    requires within { offset + count ≤ store.old.layout.chunk }
    ensures ok { (d : ServerDisk) → IsOpen D.seen D.may_leave store.old d → OnOk result (IsOpen D.seen D.may_leave store.new (disk_changed d (Zero handle serial offset count))) }
    ensures writable { (d : ServerDisk) → IsOpen D.seen D.may_leave store.old d → OnOk result (is_writable_at d handle.0 offset (offset + count) ≡ true) }
    ensures corrupt { (d : ServerDisk) → IsOpen D.seen D.may_leave store.old d → IsErrOf result making_faults.Corrupt
        → (is_writable_at d handle.0 offset (offset + count) ≡ false) × IsOpen D.seen D.may_leave store.new d }
    ensures untouched { (d : ServerDisk) → IsOpen D.seen D.may_leave store.old d → is_writable_at d handle.0 offset (offset + count) ≡ false
        → OnlyReads D.seen D.may_leave D.moment D.left_since store.old.disk store.new.disk }
    ensures any_moment { LeavesMade D.seen D.may_leave D.moment D.left_since store.old store.new (Zero handle serial offset count) }
    ensures layout { store.new.layout ≡ store.old.layout }
    ensures no_room { IsErrOf result making_faults.NoRoom → ⊥ }
    ensures cause { MayFail (D.failed store.old.disk) (D.failed store.new.disk) result }
    ensures only { (d : ServerDisk) → IsOpen D.seen D.may_leave store.old d → IsKnownOf known.now.order known.now.rows d
        → can_be_made store.old.layout.chunk known.now.rows (Zero handle serial offset count) ≡ true → IsFitting (Zero handle serial offset count) result }
{
    let Some(row) = known.row(handle) else {
        return Err(MakeFault::NoChunk);
    };
    let mutation = Mutation::Write(offset, zeros(alloc, count)?);
    store.apply(alloc, handle, row.version, serial, &mutation)
}

// A new version begins.
fn raise<D: Disk>(
    alloc: Global,
    store: &mut Store<D>,
    known: &Known,
    handle: Handle,
    version: Version,
) -> Result<(), MakeFault>
    requires is_open { store.old.is_open ≡ true }
    ensures ok { (d : ServerDisk) → IsOpen D.seen D.may_leave store.old d → OnOk result (IsOpen D.seen D.may_leave store.new (disk_changed d (Raise handle version))) }
    ensures any_moment { LeavesMade D.seen D.may_leave D.moment D.left_since store.old store.new (Raise handle version) }
    ensures layout { store.new.layout ≡ store.old.layout }
    ensures no_room { IsErrOf result making_faults.NoRoom → ⊥ }
    ensures cause { MayFail (D.failed store.old.disk) (D.failed store.new.disk) result }
    ensures only { (d : ServerDisk) → IsOpen D.seen D.may_leave store.old d → IsKnownOf known.now.order known.now.rows d
        → can_be_made store.old.layout.chunk known.now.rows (Raise handle version) ≡ true → IsFitting (Raise handle version) result }
{
    let Some(row) = known.row(handle) else {
        return Err(MakeFault::NoChunk);
    };
    store.set_version(alloc, handle, version, row.version)
}

// A new replica with the bytes of another one.
fn copy<D: Disk>(
    alloc: Global,
    store: &mut Store<D>,
    known: &Known,
    handle: Handle,
    other: Handle,
    version: Version,
) -> Result<(), MakeFault>
    requires is_open { store.old.is_open ≡ true }
    ensures ok { (d : ServerDisk) → IsOpen D.seen D.may_leave store.old d → OnOk result (IsOpen D.seen D.may_leave store.new (disk_changed d (Copy handle other version))) }
    ensures any_moment { LeavesMade D.seen D.may_leave D.moment D.left_since store.old store.new (Copy handle other version) }
    ensures layout { store.new.layout ≡ store.old.layout }
    ensures no_room { (d : ServerDisk) → IsOpen D.seen D.may_leave store.old d → IsErrOf result making_faults.NoRoom → is_disk_full store.old.layout.slots d ≡ true }
    ensures cause { MayFail (D.failed store.old.disk) (D.failed store.new.disk) result }
    ensures only { (d : ServerDisk) → IsOpen D.seen D.may_leave store.old d → IsKnownOf known.now.order known.now.rows d
        → can_be_made store.old.layout.chunk known.now.rows (Copy handle other version) ≡ true → is_copyable_at d handle.0 ≡ true → IsFitting (Copy handle other version) result }
{
    let Some(row) = known.row(handle) else {
        return Err(MakeFault::NoChunk);
    };
    store.copy_local(alloc, handle, row.version, other, version)
}

fn zeros(alloc: Global, count: u64) -> Result<Bytes, AllocError>
    ensures { IfOk result (λ b. b ≡ replicate count 0) }
{
    let all = vec![in alloc; 0; count as usize]?;
    Ok(Bytes::from_vec(all)?)
}

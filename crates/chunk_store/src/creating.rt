//! New replicas.

ghost use Rattle.std.specs.Prelude.{◌≡◌, ◌≤◌, ◌↔◌, true, [], length, OnOk, IsErrOf, None, Some};
ghost use Rattle.replica_store.specs.declared.change.StoreChange.TheVariants.{Put};
ghost use Rattle.replica_store.specs.declared.row.Row.{Row};
ghost use Rattle.replica_store.specs.Replicas.{ServerDisk, disk_changed, is_disk_full, row_at};
ghost use Rattle.store_changes.specs.Faults.{IsRefused, MayFail};
ghost use Rattle.chunk_store.specs.Volumes.{IsOpen, IsReady, LeavesChange};
ghost use Rattle.store_changes.specs.declared.fault.StoreFault.TheVariants as faults;

use crate::volume::StoreVolume;
use disk::Disk;
use gfs_types::ids::{Handle, Serial, Version};
use replica_store::row::Row;
use std::alloc::Global;
use store_changes::{StoreFault, put_in_slot};

impl<D: Disk> StoreVolume<D> {
    pub(crate) fn install(
        &mut self,
        alloc: Global,
        handle: Handle,
        version: Version,
        serial: Serial,
        bytes: &[u8],
    ) -> Result<(), StoreFault>
        requires ready { IsReady D.seen D.may_leave self.old }
        requires within { length bytes.now ≤ self.old.layout.chunk }
        ensures ok { (d : ServerDisk) → IsOpen D.seen D.may_leave self.old d → OnOk result (IsOpen D.seen D.may_leave self.new (disk_changed d (Put handle version serial bytes.now))) }
        ensures version { (d : ServerDisk) → IsOpen D.seen D.may_leave self.old d → (IsErrOf result faults.Version ↔ (row : Row) × (row_at d handle.0 ≡ Some row)) }
        ensures no_room { (d : ServerDisk) → IsOpen D.seen D.may_leave self.old d
            → (IsErrOf result faults.NoRoom ↔ (row_at d handle.0 ≡ None) × (is_disk_full self.old.layout.slots d ≡ true)) }
        ensures ready { OnOk result (IsReady D.seen D.may_leave self.new) }
        ensures no_chunk { IsErrOf result faults.NoChunk → ⊥ }
        ensures intact { IsErrOf result faults.Corrupt → ⊥ }
        ensures no_serial { IsErrOf result faults.OldSerial → ⊥ }
        ensures refused { (d : ServerDisk) → IsOpen D.seen D.may_leave self.old d → IsRefused result → IsOpen D.seen D.may_leave self.new d }
        ensures kept { IsRefused result → IsReady D.seen D.may_leave self.new }
        ensures any_moment { LeavesChange D.seen D.moment D.left_since self.old self.new (Put handle version serial bytes.now) }
        ensures layout { self.new.layout ≡ self.old.layout }
        ensures cause { MayFail (D.failed self.old.disk) (D.failed self.new.disk) result }
    {
        if self.index.get(handle).is_some() {
            return Err(StoreFault::Version);
        }
        let row = Row {
            version,
            serial,
            count: bytes.len() as u64,
        };
        let Some(slot) = self.index.add(handle, row)? else {
            return Err(StoreFault::NoRoom);
        };
        // Of a disk that says something each free slot is one of its slots.
        let slots = self.layout.slots;
        if slot >= slots {
            return Err(StoreFault::NoRoom);
        }
        put_in_slot(alloc, &mut self.disk, self.layout, slot, handle, row, bytes)?;
        Ok(())
    }

    pub(crate) fn create(
        &mut self,
        alloc: Global,
        handle: Handle,
        version: Version,
    ) -> Result<(), StoreFault>
        requires ready { IsReady D.seen D.may_leave self.old }
        ensures ok { (d : ServerDisk) → IsOpen D.seen D.may_leave self.old d → OnOk result (IsOpen D.seen D.may_leave self.new (disk_changed d (Put handle version (record { 0 = 0 }) []))) }
        ensures ready { OnOk result (IsReady D.seen D.may_leave self.new) }
        ensures version { (d : ServerDisk) → IsOpen D.seen D.may_leave self.old d → (IsErrOf result faults.Version ↔ (row : Row) × (row_at d handle.0 ≡ Some row)) }
        ensures no_room { (d : ServerDisk) → IsOpen D.seen D.may_leave self.old d
            → (IsErrOf result faults.NoRoom ↔ (row_at d handle.0 ≡ None) × (is_disk_full self.old.layout.slots d ≡ true)) }
        ensures no_chunk { IsErrOf result faults.NoChunk → ⊥ }
        ensures intact { IsErrOf result faults.Corrupt → ⊥ }
        ensures no_serial { IsErrOf result faults.OldSerial → ⊥ }
        ensures refused { (d : ServerDisk) → IsOpen D.seen D.may_leave self.old d → IsRefused result → IsOpen D.seen D.may_leave self.new d }
        ensures kept { IsRefused result → IsReady D.seen D.may_leave self.new }
        ensures any_moment { LeavesChange D.seen D.moment D.left_since self.old self.new (Put handle version (record { 0 = 0 }) []) }
        ensures layout { self.new.layout ≡ self.old.layout }
        ensures cause { MayFail (D.failed self.old.disk) (D.failed self.new.disk) result }
    {
        self.install(alloc, handle, version, Serial(0), &[])
    }
}

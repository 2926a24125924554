//! Copies of replicas.

ghost use Rattle.std.specs.Prelude.{◌≡◌, ◌≢◌, ◌⊎◌, ◌↔◌, true, OnOk, IsErrOf, None, Some};
ghost use Rattle.replica_store.specs.declared.change.StoreChange.TheVariants.{Copy};
ghost use Rattle.replica_store.specs.declared.row.Row.{Row};
ghost use Rattle.replica_store.specs.Replicas.{ServerDisk, disk_changed, is_disk_full, row_at};
ghost use Rattle.store_changes.specs.Faults.{IsRefused, MayFail};
ghost use Rattle.store_changes.specs.Images.{image_at};
ghost use Rattle.chunk_store.specs.Volumes.{IsOpen, IsReady, LeavesChange};
ghost use Rattle.store_changes.specs.declared.fault.StoreFault.TheVariants as faults;

use crate::volume::StoreVolume;
use disk::Disk;
use gfs_types::ids::{Handle, Serial, Version};
use std::alloc::Global;
use store_changes::StoreFault;

impl<D: Disk> StoreVolume<D> {
    pub(crate) fn copy_local(
        &mut self,
        alloc: Global,
        handle: Handle,
        version: Version,
        copy: Handle,
        copy_version: Version,
    ) -> Result<(), StoreFault>
        requires ready { IsReady D.seen D.may_leave self.old }
        ensures ok { (d : ServerDisk) → IsOpen D.seen D.may_leave self.old d → OnOk result (IsOpen D.seen D.may_leave self.new (disk_changed d (Copy handle copy copy_version))) }
        ensures no_chunk { (d : ServerDisk) → IsOpen D.seen D.may_leave self.old d → (IsErrOf result faults.NoChunk ↔ row_at d handle.0 ≡ None) }
        ensures version { (d : ServerDisk) → IsOpen D.seen D.may_leave self.old d
            → (IsErrOf result faults.Version ↔ (row : Row) × (row_at d handle.0 ≡ Some row) × ((row.version ≢ version) ⊎ ((held : Row) × (row_at d copy.0 ≡ Some held)))) }
        ensures corrupt { (d : ServerDisk) → IsOpen D.seen D.may_leave self.old d → IsErrOf result faults.Corrupt → image_at d handle.0 ≡ None }
        ensures ready { OnOk result (IsReady D.seen D.may_leave self.new) }
        ensures no_room { (d : ServerDisk) → IsOpen D.seen D.may_leave self.old d
            → (IsErrOf result faults.NoRoom ↔ (row : Row) × (row_at d handle.0 ≡ Some row) × (row.version ≡ version) × (row_at d copy.0 ≡ None) × (is_disk_full self.old.layout.slots d ≡ true)) }
        ensures no_serial { IsErrOf result faults.OldSerial → ⊥ }
        ensures refused { (d : ServerDisk) → IsOpen D.seen D.may_leave self.old d → IsRefused result → IsOpen D.seen D.may_leave self.new d }
        ensures any_moment { LeavesChange D.seen D.moment D.left_since self.old self.new (Copy handle copy copy_version) }
        ensures layout { self.new.layout ≡ self.old.layout }
        ensures kept { IsRefused result → IsReady D.seen D.may_leave self.new }
        ensures cause { MayFail (D.failed self.old.disk) (D.failed self.new.disk) result }
    {
        match self.find(handle, version) {
            Ok(_) => {}
            Err(fault) => return Err(fault),
        }
        if self.index.get(copy).is_some() {
            return Err(StoreFault::Version);
        }
        if self.index.is_full() {
            return Err(StoreFault::NoRoom);
        }
        match self.image(alloc, handle, version) {
            Ok(bytes) => {
                // Of a disk that says something no replica is longer than a chunk.
                let count = bytes.len();
                let chunk = self.layout.chunk as usize;
                if count > chunk {
                    return Err(StoreFault::Corrupt);
                }
                self.install(alloc, copy, copy_version, Serial(0), &bytes)
            }
            Err(fault) => Err(fault),
        }
    }
}

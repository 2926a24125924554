//! Reading replicas.

ghost use Rattle.std.specs.Prelude.{◌≡◌, ◌≢◌, ◌↔◌, IfOk, IsErrOf, None, Some};
ghost use Rattle.disk_redo.specs.GateMoments.{OnlyReads};
ghost use Rattle.replica_store.specs.declared.row.Row.{Row};
ghost use Rattle.replica_store.specs.Replicas.{ServerDisk, read_at, row_at};
ghost use Rattle.store_changes.specs.Changing.{Says};
ghost use Rattle.store_changes.specs.Faults.{MayFail};
ghost use Rattle.store_changes.specs.Images.{image_at};
ghost use Rattle.chunk_store.specs.Volumes.{IsOpen, IsReady};
ghost use Rattle.store_changes.specs.declared.fault.StoreFault.TheVariants as faults;

use crate::volume::StoreVolume;
use bytes::Bytes;
use disk::Disk;
use gfs_types::ids::{Handle, Version};
use std::alloc::Global;
use store_changes::{StoreFault, read_replica};

impl<D: Disk> StoreVolume<D> {
    pub(crate) fn read(
        &mut self,
        alloc: Global,
        handle: Handle,
        version: Version,
        offset: u64,
        count: u64,
    ) -> Result<Bytes, StoreFault>
        requires ready { IsReady D.seen D.may_leave self.old }
        ensures ok { (d : ServerDisk) → Says self.old.layout.chunk self.old.layout.block self.old.layout.slots self.old.index (D.seen self.old.disk) d → IfOk result (λ bytes. Some bytes ≡ read_at d handle.0 offset count) }
        ensures still_open { (d : ServerDisk) → IsOpen D.seen D.may_leave self.old d → IsOpen D.seen D.may_leave self.new d }
        ensures no_chunk { (d : ServerDisk) → IsOpen D.seen D.may_leave self.old d → (IsErrOf result faults.NoChunk ↔ row_at d handle.0 ≡ None) }
        ensures version { (d : ServerDisk) → IsOpen D.seen D.may_leave self.old d → (IsErrOf result faults.Version ↔ (row : Row) × (row_at d handle.0 ≡ Some row) × (row.version ≢ version)) }
        ensures corrupt { (d : ServerDisk) → IsOpen D.seen D.may_leave self.old d → IsErrOf result faults.Corrupt → read_at d handle.0 offset count ≡ None }
        ensures no_room { IsErrOf result faults.NoRoom → ⊥ }
        ensures no_serial { IsErrOf result faults.OldSerial → ⊥ }
        ensures unchanged { self.new ≡ record self.old { disk = self.new.disk } }
        ensures ready { IsReady D.seen D.may_leave self.new }
        ensures reads { OnlyReads D.seen D.may_leave D.moment D.left_since self.old.disk self.new.disk }
        ensures cause { MayFail (D.failed self.old.disk) (D.failed self.new.disk) result }
    {
        let found = match self.find(handle, version) {
            Ok(found) => found,
            Err(fault) => return Err(fault),
        };
        let read = read_replica(
            alloc,
            &mut self.disk,
            &mut self.hashed,
            self.layout,
            found,
            offset,
            count,
        )?;
        match read {
            Some(bytes) => Ok(bytes),
            None => Err(StoreFault::Corrupt),
        }
    }

    pub(crate) fn image(
        &mut self,
        alloc: Global,
        handle: Handle,
        version: Version,
    ) -> Result<Bytes, StoreFault>
        requires ready { IsReady D.seen D.may_leave self.old }
        ensures ok { (d : ServerDisk) → Says self.old.layout.chunk self.old.layout.block self.old.layout.slots self.old.index (D.seen self.old.disk) d → IfOk result (λ bytes. Some bytes ≡ image_at d handle.0) }
        ensures still_open { (d : ServerDisk) → IsOpen D.seen D.may_leave self.old d → IsOpen D.seen D.may_leave self.new d }
        ensures no_chunk { (d : ServerDisk) → IsOpen D.seen D.may_leave self.old d → (IsErrOf result faults.NoChunk ↔ row_at d handle.0 ≡ None) }
        ensures version { (d : ServerDisk) → IsOpen D.seen D.may_leave self.old d → (IsErrOf result faults.Version ↔ (row : Row) × (row_at d handle.0 ≡ Some row) × (row.version ≢ version)) }
        ensures corrupt { (d : ServerDisk) → IsOpen D.seen D.may_leave self.old d → IsErrOf result faults.Corrupt → image_at d handle.0 ≡ None }
        ensures no_room { IsErrOf result faults.NoRoom → ⊥ }
        ensures no_serial { IsErrOf result faults.OldSerial → ⊥ }
        ensures unchanged { self.new ≡ record self.old { disk = self.new.disk } }
        ensures ready { IsReady D.seen D.may_leave self.new }
        ensures reads { OnlyReads D.seen D.may_leave D.moment D.left_since self.old.disk self.new.disk }
        ensures cause { MayFail (D.failed self.old.disk) (D.failed self.new.disk) result }
    {
        let count = self.length(handle).unwrap_or(0);
        self.read(alloc, handle, version, 0, count)
    }
}

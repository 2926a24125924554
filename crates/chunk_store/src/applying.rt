//! Applying mutations.

ghost use Rattle.std.specs.Prelude.{◌≡◌, ◌≢◌, ◌≤◌, ◌+◌, ◌↔◌, true, false, length, OnOk, IsErrOf, None, Some};
ghost use Rattle.disk_redo.specs.GateMoments.{OnlyReads};
ghost use Rattle.replica_store.specs.declared.row.Row.{Row};
ghost use Rattle.replica_store.specs.Replicas.{ServerDisk, disk_changed, is_writable_at, row_at};
ghost use Rattle.store_changes.specs.Faults.{IsRefused, MayFail};
ghost use Rattle.store_changes.specs.Mutations.{bytes_of as bytes_value, change_of, place_of as place_value};
ghost use Rattle.chunk_store.specs.Volumes.{IsOpen, IsReady, LeavesChange};
ghost use Rattle.store_changes.specs.declared.fault.StoreFault.TheVariants as faults;

use crate::volume::StoreVolume;
use disk::Disk;
use gfs_types::ids::{Handle, Serial, Version};
use gfs_types::mutation::Mutation;
use std::alloc::Global;
use store_changes::{StoreFault, bytes_of, place_of, write};

impl<D: Disk> StoreVolume<D> {
    pub(crate) fn apply(
        &mut self,
        alloc: Global,
        handle: Handle,
        version: Version,
        serial: Serial,
        mutation: &Mutation,
    ) -> Result<(), StoreFault>
        requires ready { IsReady D.seen D.may_leave self.old }
        requires within { place_value mutation.now + length (bytes_value mutation.now) ≤ self.old.layout.chunk }
        ensures ok { (d : ServerDisk) → IsOpen D.seen D.may_leave self.old d
            → OnOk result (IsOpen D.seen D.may_leave self.new (disk_changed d (change_of handle serial mutation.now))) }
        ensures no_chunk { (d : ServerDisk) → IsOpen D.seen D.may_leave self.old d → (IsErrOf result faults.NoChunk ↔ row_at d handle.0 ≡ None) }
        ensures version { (d : ServerDisk) → IsOpen D.seen D.may_leave self.old d → (IsErrOf result faults.Version ↔ (row : Row) × (row_at d handle.0 ≡ Some row) × (row.version ≢ version)) }
        ensures ready { OnOk result (IsReady D.seen D.may_leave self.new) }
        ensures old_serial { (d : ServerDisk) → IsOpen D.seen D.may_leave self.old d
            → (IsErrOf result faults.OldSerial ↔ (row : Row) × (row_at d handle.0 ≡ Some row) × (row.version ≡ version) × (serial.0 ≤ row.serial.0)) }
        ensures corrupt { (d : ServerDisk) → IsOpen D.seen D.may_leave self.old d → IsErrOf result faults.Corrupt
            → is_writable_at d handle.0 (place_value mutation.now) (place_value mutation.now + length (bytes_value mutation.now)) ≡ false }
        ensures writable { (d : ServerDisk) → IsOpen D.seen D.may_leave self.old d
            → OnOk result (is_writable_at d handle.0 (place_value mutation.now) (place_value mutation.now + length (bytes_value mutation.now)) ≡ true) }
        ensures kept { IsRefused result → IsReady D.seen D.may_leave self.new }
        ensures untouched { (d : ServerDisk) → IsOpen D.seen D.may_leave self.old d
            → is_writable_at d handle.0 (place_value mutation.now) (place_value mutation.now + length (bytes_value mutation.now)) ≡ false
            → OnlyReads D.seen D.may_leave D.moment D.left_since self.old.disk self.new.disk }
        ensures no_room { IsErrOf result faults.NoRoom → ⊥ }
        ensures refused { (d : ServerDisk) → IsOpen D.seen D.may_leave self.old d → IsRefused result → IsOpen D.seen D.may_leave self.new d }
        ensures any_moment { LeavesChange D.seen D.moment D.left_since self.old self.new (change_of handle serial mutation.now) }
        ensures layout { self.new.layout ≡ self.old.layout }
        ensures cause { MayFail (D.failed self.old.disk) (D.failed self.new.disk) result }
    {
        let found = match self.find(handle, version) {
            Ok(found) => found,
            Err(fault) => return Err(fault),
        };
        let new = serial.0;
        let last = found.row.serial.0;
        if new <= last {
            return Err(StoreFault::OldSerial);
        }
        let bytes = bytes_of(alloc, mutation)?;
        let place = place_of(mutation);
        let written = write(
            alloc,
            &mut self.disk,
            &mut self.hashed,
            self.layout,
            &mut self.index,
            handle,
            found,
            serial,
            place,
            &bytes,
        )?;
        if written {
            Ok(())
        } else {
            Err(StoreFault::Corrupt)
        }
    }
}

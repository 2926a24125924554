//! Bytes that rot.

ghost use Rattle.std.specs.Prelude.{◌≡◌, ◌<◌, ◌↔◌, OnOk, IsErrOf, None};
ghost use Rattle.replica_store.specs.Replicas.{ServerDisk, disk_changed, row_at};
ghost use Rattle.replica_store.specs.declared.change.StoreChange.TheVariants.{Rot};
ghost use Rattle.store_changes.specs.Faults.{IsRefused, MayFail};
ghost use Rattle.chunk_store.specs.Volumes.{IsOpen, IsReady, LeavesChange};
ghost use Rattle.store_changes.specs.declared.fault.StoreFault.TheVariants as faults;

use crate::volume::StoreVolume;
use disk::Disk;
use gfs_types::ids::Handle;
use std::alloc::Global;
use store_changes::{StoreFault, rot};

impl<D: Disk> StoreVolume<D> {
    pub(crate) fn rot(
        &mut self,
        alloc: Global,
        handle: Handle,
        place: u64,
        byte: u8,
    ) -> Result<(), StoreFault>
        requires ready { IsReady D.seen D.may_leave self.old }
        requires place { place < self.old.layout.chunk }
        ensures ok { (d : ServerDisk) → IsOpen D.seen D.may_leave self.old d → OnOk result (IsOpen D.seen D.may_leave self.new (disk_changed d (Rot handle place byte))) }
        ensures no_chunk { (d : ServerDisk) → IsOpen D.seen D.may_leave self.old d → (IsErrOf result faults.NoChunk ↔ row_at d handle.0 ≡ None) }
        ensures only { IsRefused result → IsErrOf result faults.NoChunk }
        ensures refused { (d : ServerDisk) → IsOpen D.seen D.may_leave self.old d → IsRefused result → IsOpen D.seen D.may_leave self.new d }
        ensures any_moment { LeavesChange D.seen D.moment D.left_since self.old self.new (Rot handle place byte) }
        ensures layout { self.new.layout ≡ self.old.layout }
        ensures ready { OnOk result (IsReady D.seen D.may_leave self.new) }
        ensures kept { IsRefused result → IsReady D.seen D.may_leave self.new }
        ensures cause { MayFail (D.failed self.old.disk) (D.failed self.new.disk) result }
    {
        let Some(found) = self.held_within(handle) else {
            return Err(StoreFault::NoChunk);
        };
        rot(
            alloc,
            &mut self.disk,
            self.layout,
            &self.index,
            handle,
            found,
            place as usize,
            byte,
        )?;
        Ok(())
    }
}

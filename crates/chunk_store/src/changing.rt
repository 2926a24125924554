//! Changes of the store. Each is on the disk for good at `Ok`; a stop at any moment of a call, and `Device` and `NoMemory`, leave the disk as it was before the change or after it.

ghost use Rattle.std.specs.Prelude.{◌≡◌, ◌≢◌, ◌⊎◌, ◌↔◌, OnOk, IsErrOf, None, Some};
ghost use Rattle.replica_store.specs.declared.change.StoreChange.TheVariants.{Raise, Remove, SetOrder};
ghost use Rattle.replica_store.specs.declared.row.Row.{Row};
ghost use Rattle.replica_store.specs.Replicas.{ServerDisk, disk_changed, row_at};
ghost use Rattle.store_changes.specs.Faults.{IsRefused, MayFail};
ghost use Rattle.chunk_store.specs.Volumes.{IsOpen, IsReady, LeavesChange};
ghost use Rattle.store_changes.specs.declared.fault.StoreFault.TheVariants as faults;

use crate::volume::StoreVolume;
use disk::Disk;
use gfs_types::ids::{Handle, OrderNo, Version};
use std::alloc::Global;
use store_changes::{StoreFault, raise, remove, set_order};

impl<D: Disk> StoreVolume<D> {
    pub(crate) fn set_order(&mut self, alloc: Global, order: OrderNo) -> Result<(), StoreFault>
        requires ready { IsReady D.seen D.may_leave self.old }
        ensures ok { (d : ServerDisk) → IsOpen D.seen D.may_leave self.old d → OnOk result (IsOpen D.seen D.may_leave self.new (disk_changed d (SetOrder order))) }
        ensures unrefused { IsRefused result → ⊥ }
        ensures any_moment { LeavesChange D.seen D.moment D.left_since self.old self.new (SetOrder order) }
        ensures layout { self.new.layout ≡ self.old.layout }
        ensures ready { OnOk result (IsReady D.seen D.may_leave self.new) }
        ensures kept { IsRefused result → IsReady D.seen D.may_leave self.new }
        ensures cause { MayFail (D.failed self.old.disk) (D.failed self.new.disk) result }
    {
        set_order(alloc, &mut self.disk, self.layout, order)?;
        self.order = order;
        Ok(())
    }

    pub(crate) fn set_version(
        &mut self,
        alloc: Global,
        handle: Handle,
        version: Version,
        base: Version,
    ) -> Result<(), StoreFault>
        requires ready { IsReady D.seen D.may_leave self.old }
        ensures ok { (d : ServerDisk) → IsOpen D.seen D.may_leave self.old d → OnOk result (IsOpen D.seen D.may_leave self.new (disk_changed d (Raise handle version))) }
        ensures no_chunk { (d : ServerDisk) → IsOpen D.seen D.may_leave self.old d → (IsErrOf result faults.NoChunk ↔ row_at d handle.0 ≡ None) }
        ensures version { (d : ServerDisk) → IsOpen D.seen D.may_leave self.old d → (IsErrOf result faults.Version ↔ (row : Row) × (row_at d handle.0 ≡ Some row) × (row.version ≢ base)) }
        ensures only { IsRefused result → IsErrOf result faults.NoChunk ⊎ IsErrOf result faults.Version }
        ensures refused { (d : ServerDisk) → IsOpen D.seen D.may_leave self.old d → IsRefused result → IsOpen D.seen D.may_leave self.new d }
        ensures any_moment { LeavesChange D.seen D.moment D.left_since self.old self.new (Raise handle version) }
        ensures layout { self.new.layout ≡ self.old.layout }
        ensures ready { OnOk result (IsReady D.seen D.may_leave self.new) }
        ensures kept { IsRefused result → IsReady D.seen D.may_leave self.new }
        ensures cause { MayFail (D.failed self.old.disk) (D.failed self.new.disk) result }
    {
        let found = match self.find(handle, base) {
            Ok(found) => found,
            Err(fault) => return Err(fault),
        };
        raise(
            alloc,
            &mut self.disk,
            self.layout,
            &mut self.index,
            handle,
            found,
            version,
        )?;
        Ok(())
    }

    pub(crate) fn drop_replica(&mut self, alloc: Global, handle: Handle) -> Result<(), StoreFault>
        requires ready { IsReady D.seen D.may_leave self.old }
        ensures ok { (d : ServerDisk) → IsOpen D.seen D.may_leave self.old d → OnOk result (IsOpen D.seen D.may_leave self.new (disk_changed d (Remove handle))) }
        ensures no_chunk { (d : ServerDisk) → IsOpen D.seen D.may_leave self.old d → (IsErrOf result faults.NoChunk ↔ row_at d handle.0 ≡ None) }
        ensures only { IsRefused result → IsErrOf result faults.NoChunk }
        ensures refused { (d : ServerDisk) → IsOpen D.seen D.may_leave self.old d → IsRefused result → IsOpen D.seen D.may_leave self.new d }
        ensures any_moment { LeavesChange D.seen D.moment D.left_since self.old self.new (Remove handle) }
        ensures layout { self.new.layout ≡ self.old.layout }
        ensures ready { OnOk result (IsReady D.seen D.may_leave self.new) }
        ensures kept { IsRefused result → IsReady D.seen D.may_leave self.new }
        ensures cause { MayFail (D.failed self.old.disk) (D.failed self.new.disk) result }
    {
        let Some(found) = self.held_within(handle) else {
            return Err(StoreFault::NoChunk);
        };
        remove(
            alloc,
            &mut self.disk,
            self.layout,
            &mut self.index,
            handle,
            found,
        )?;
        Ok(())
    }
}

//! What the store knows without a look at its disk.

ghost use Rattle.std.specs.Prelude.{◌≡◌, ◌≢◌, ◌<◌, ◌≤◌, ◌↔◌, ◌⊎◌, IfErr, IfOk, IfSome, IsErrOf, None, Some};
ghost use Rattle.std.specs.FinMap as map;
ghost use Rattle.std.specs.Option.{option_map};
ghost use Rattle.replica_store.specs.declared.row.Row.{Row};
ghost use Rattle.replica_store.specs.Replicas.{ServerDisk, row_at};
ghost use Rattle.store_changes.specs.Changing.{Says};
ghost use Rattle.store_disk.specs.Rows.{rows_of};
ghost use Rattle.store_disk.specs.declared.held.HeldReplica.{HeldReplica as HeldValue};
ghost use Rattle.store_changes.specs.declared.fault.StoreFault.TheVariants as faults;
ghost use Rattle.chunk_store.specs.Volumes.{IsOpen};

use crate::volume::StoreVolume;
use disk::Disk;
use gfs_types::ids::{Handle, OrderNo, Version};
use replica_store::row::Row;
use std::alloc::{AllocError, Global};
use store_changes::StoreFault;
use store_disk::{HeldReplica, Layout};

impl<D: Disk> StoreVolume<D> {
    // Where a replica lies, with no more bytes than a chunk has. On a disk that says something each one does.
    pub(crate) fn held_within(&self, handle: Handle) -> Option<HeldReplica>
        ensures held { (found : HeldValue) → result ≡ Some found → map.get self.now.index.held handle.0 ≡ Some found }
        ensures slot { IfSome result (λ found. found.slot < self.now.layout.slots) }
        ensures count { IfSome result (λ found. found.row.count ≤ self.now.layout.chunk) }
        ensures known { (d : ServerDisk) → IsOpen D.seen D.may_leave self.now d → result ≡ map.get self.now.index.held handle.0 }
    {
        let Some(found) = self.index.get(handle) else {
            return None;
        };
        let slot = found.slot;
        let slots = self.layout.slots;
        if slot >= slots {
            return None;
        }
        let count = found.row.count;
        let chunk = u64::from(self.layout.chunk);
        if count > chunk {
            return None;
        }
        Some(found)
    }

    // Where a replica of exactly this version lies.
    pub(crate) fn find(&self, handle: Handle, version: Version) -> Result<HeldReplica, StoreFault>
        ensures found { IfOk result (λ found. (map.get self.now.index.held handle.0 ≡ Some found) × (found.row.version ≡ version)) }
        ensures slot { IfOk result (λ found. found.slot < self.now.layout.slots) }
        ensures count { IfOk result (λ found. found.row.count ≤ self.now.layout.chunk) }
        ensures no_chunk { (d : ServerDisk) → IsOpen D.seen D.may_leave self.now d → (IsErrOf result faults.NoChunk ↔ row_at d handle.0 ≡ None) }
        ensures version { (d : ServerDisk) → IsOpen D.seen D.may_leave self.now d → (IsErrOf result faults.Version ↔ (row : Row) × (row_at d handle.0 ≡ Some row) × (row.version ≢ version)) }
        ensures no_other { IfErr result (λ fault. (fault ≡ faults.NoChunk) ⊎ (fault ≡ faults.Version)) }
    {
        let Some(found) = self.held_within(handle) else {
            return Err(StoreFault::NoChunk);
        };
        let held = found.row.version.0;
        let wanted = version.0;
        if held == wanted {
            Ok(found)
        } else {
            Err(StoreFault::Version)
        }
    }

    pub(crate) fn layout(&self) -> Layout
        ensures { result ≡ self.now.layout }
    {
        self.layout
    }

    pub(crate) fn chunk(&self) -> u32
        ensures { result ≡ self.now.layout.chunk }
    {
        self.layout.chunk
    }

    pub(crate) fn held(&self, handle: Handle) -> Option<HeldReplica>
        ensures { result ≡ map.get self.now.index.held handle.0 }
    {
        self.index.get(handle)
    }

    pub(crate) fn row(&self, handle: Handle) -> Option<Row>
        ensures { (d : ServerDisk) → Says self.now.layout.chunk self.now.layout.block self.now.layout.slots self.now.index (D.seen self.now.disk) d → result ≡ row_at d handle.0 }
    {
        let Some(found) = self.index.get(handle) else {
            return None;
        };
        Some(found.row)
    }

    pub(crate) fn length(&self, handle: Handle) -> Option<u64>
        ensures { (d : ServerDisk) → Says self.now.layout.chunk self.now.layout.block self.now.layout.slots self.now.index (D.seen self.now.disk) d → result ≡ option_map (λ row. row.count) (row_at d handle.0) }
    {
        let row = self.row(handle)?;
        Some(row.count)
    }

    pub(crate) fn list(&self, alloc: Global) -> Result<Vec<(Handle, Row)>, AllocError>
        ensures { (d : ServerDisk) → IsOpen D.seen D.may_leave self.now d → IfOk result (λ rows. rows.items ≡ rows_of d) }
    {
        self.index.list(alloc)
    }

    pub(crate) fn order(&self) -> OrderNo
        ensures { (d : ServerDisk) → IsOpen D.seen D.may_leave self.now d → result ≡ record { epoch = d.epoch; count = d.count } }
    {
        self.order
    }
}

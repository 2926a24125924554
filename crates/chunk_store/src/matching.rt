//! Ranges that can be written over.

ghost use Rattle.std.specs.Prelude.{◌≡◌, ◌≤◌, IfOk};
ghost use Rattle.disk.specs.Device.{HasCause};
ghost use Rattle.disk_redo.specs.GateMoments.{OnlyReads};
ghost use Rattle.replica_store.specs.Replicas.{ServerDisk, is_writable_at};
ghost use Rattle.chunk_store.specs.Volumes.{IsOpen, IsReady};

use crate::volume::StoreVolume;
use disk::{Disk, DiskFault};
use gfs_types::ids::Handle;
use std::alloc::Global;
use store_changes::read_edges;

impl<D: Disk> StoreVolume<D> {
    pub(crate) fn is_writable(
        &mut self,
        alloc: Global,
        handle: Handle,
        offset: u64,
        end: u64,
    ) -> Result<bool, DiskFault>
        requires ready { IsReady D.seen D.may_leave self.old }
        requires within { end ≤ self.old.layout.chunk }
        ensures value { (d : ServerDisk) → IsOpen D.seen D.may_leave self.old d → IfOk result (λ b. b ≡ is_writable_at d handle.0 offset end) }
        ensures still_open { (d : ServerDisk) → IsOpen D.seen D.may_leave self.old d → IsOpen D.seen D.may_leave self.new d }
        ensures unchanged { self.new ≡ record self.old { disk = self.new.disk } }
        ensures ready { IsReady D.seen D.may_leave self.new }
        ensures reads { OnlyReads D.seen D.may_leave D.moment D.left_since self.old.disk self.new.disk }
        ensures cause { HasCause (D.failed self.old.disk) (D.failed self.new.disk) result }
    {
        let Some(found) = self.held_within(handle) else {
            return Ok(true);
        };
        if end <= offset {
            return Ok(true);
        }
        let layout = self.layout;
        let edges = read_edges(
            alloc,
            &mut self.disk,
            &mut self.hashed,
            layout,
            found.slot,
            offset as usize,
            end as usize,
        )?;
        Ok(edges.is_some())
    }
}

//! A store's place on its disk.

ghost use Rattle.std.specs.Prelude.{◌≡◌};
ghost use Rattle.disk_redo.specs.GateMoments.{OnlyReads};
ghost use Rattle.replica_store.specs.Replicas.{ServerDisk};
ghost use Rattle.chunk_store.specs.Volumes.{IsOpen};

use disk::Disk;
use gfs_types::ids::OrderNo;
use store_disk::{HashedBlock, Layout, SlotIndex};

/// A disk with a store on it: the number of the last order that was taken, and where the replicas lie.
#[derive(Drop)]
pub struct StoreVolume<D: Disk> {
    pub(crate) disk: D,
    pub(crate) layout: Layout,
    pub(crate) order: OrderNo,
    pub(crate) index: SlotIndex,
    // A block that is read or written again isn't hashed again.
    pub(crate) hashed: HashedBlock,
}

impl<D: Disk> StoreVolume<D> {
    pub(crate) fn into_disk(self) -> D
        ensures { result ≡ self.disk }
    {
        self.disk
    }

    pub(crate) fn failures(&self) -> u64
        ensures { result ≡ D.failed self.now.disk }
    {
        self.disk.failures()
    }

    pub(crate) fn arm(&mut self, calls: u64)
        ensures still_open { (d : ServerDisk) → IsOpen D.seen D.may_leave self.old d → IsOpen D.seen D.may_leave self.new d }
        ensures unchanged { self.new ≡ record self.old { disk = self.new.disk } }
        ensures reads { OnlyReads D.seen D.may_leave D.moment D.left_since self.old.disk self.new.disk }
        ensures failed { D.failed self.new.disk ≡ D.failed self.old.disk }
    {
        self.disk.arm(calls);
    }
}

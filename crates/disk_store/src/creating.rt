//! A store on a new disk.

ghost use Rattle.std.specs.Prelude.{◌≡◌, ◌≤◌, ◌%◌, [], true, length, IfOk};
ghost use Rattle.disk_redo.specs.GateMoments.{OnlyReads};
ghost use Rattle.replica_store.specs.Replicas.{new_server_disk};
ghost use Rattle.store_disk.specs.Formats.{is_head_open};

use crate::disk_store::DiskStore;
use disk::Disk;
use disk_redo::step::read;
use replica_store::fault::ReplicaStoreFault;
use std::alloc::Global;
use store_disk::Layout;

// Whether the head of a disk is open.
fn has_open_head<D: Disk>(disk: &mut D) -> Result<bool, ReplicaStoreFault>
    requires { 32 ≤ length (D.seen disk.old) }
    ensures head { IfOk result (λ b. b ≡ is_head_open (D.seen disk.old)) }
    ensures reads { OnlyReads D.seen D.may_leave D.moment D.left_since disk.old disk.new }
{
    let mut gate = [0];
    if read(disk, 31, &mut gate).is_err() {
        return Err(ReplicaStoreFault::DiskFailed);
    }
    Ok(gate[0] == 1)
}

impl<D: Disk + Drop> DiskStore<D> {
    /// A new store on a disk that holds none, for chunks of whole blocks.
    pub fn new(alloc: Global, disk: D, layout: Layout) -> Result<DiskStore<D>, ReplicaStoreFault>
        requires { layout.chunk % layout.block ≡ 0 }
        ensures new { IfOk result (λ s. (s.disk ≡ new_server_disk layout.chunk layout.block layout.slots) × (s.under_way ≡ [])) }
        ensures open { IfOk result (λ s. s.is_open ≡ true) }
    {
        let mut disk = disk;
        if disk.size() < layout.disk_size() {
            return Err(ReplicaStoreFault::DiskFailed);
        }
        if has_open_head(&mut disk)? {
            return Err(ReplicaStoreFault::DiskFailed);
        }
        match DiskStore::open(alloc, disk, layout) {
            Ok(store) => Ok(store),
            Err((_disk, fault)) => Err(fault),
        }
    }
}

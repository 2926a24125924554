//! Opening a store.

ghost use Rattle.std.specs.Prelude.{◌≡◌, ◌<◌, ◌≤◌, ◌%◌, true, length, IfErr, IfOk, OnOk};
ghost use Rattle.disk_redo.specs.GateMoments.{LeavesOnly};
ghost use Rattle.replica_store.specs.Replicas.{ServerDisk};
ghost use Rattle.store_disk.specs.Formats.{IsHeadOf, is_head_open};
ghost use Rattle.store_disk.specs.Places.{disk_size};
ghost use Rattle.chunk_store.specs.Opening.{HoldsReplicas, IsOpening};
ghost use Rattle.chunk_store.specs.declared.fault.OpenFault.TheVariants as faults;
ghost use Rattle.chunk_store.specs.Volumes.{IsOpen, IsReady};

use crate::OpenFault;
use crate::disk_opening::open_disk;
use crate::volume::StoreVolume;
use disk::Disk;
use std::alloc::Global;
use store_disk::{HashedBlock, Layout};

impl<D: Disk> StoreVolume<D> {
    pub(crate) fn open(
        mut disk: D,
        alloc: Global,
        layout: Layout,
    ) -> Result<StoreVolume<D>, (D, OpenFault)>
        requires whole { layout.chunk % layout.block ≡ 0 }
        ensures open { IfOk result (λ store. (d : ServerDisk) → HoldsReplicas layout.chunk layout.block layout.slots (D.seen disk) d → IsOpen D.seen D.may_leave store d) }
        ensures ready { IfOk result (λ store. IsReady D.seen D.may_leave store) }
        ensures layout { IfOk result (λ store. store.layout ≡ layout) }
        ensures its_head { is_head_open (D.seen disk) ≡ true → OnOk result (IsHeadOf layout.chunk layout.block layout.slots (D.seen disk)) }
        ensures large { OnOk result (disk_size layout.chunk layout.block layout.slots ≤ length (D.seen disk)) }
        ensures undamaged { disk_size layout.chunk layout.block layout.slots ≤ length (D.seen disk) → (is_head_open (D.seen disk) ≡ true → IsHeadOf layout.chunk layout.block layout.slots (D.seen disk)) → IfErr result (λ e. e.1 ≡ faults.Damaged → ⊥) }
        ensures held { IfErr result (λ e. (d : ServerDisk) → HoldsReplicas layout.chunk layout.block layout.slots (D.seen disk) d → HoldsReplicas layout.chunk layout.block layout.slots (D.seen e.0) d) }
        ensures any_moment { IfOk result (λ store. LeavesOnly D.moment D.left_since disk store.disk (IsOpening layout.chunk layout.block layout.slots (D.seen disk) (D.may_leave disk))) }
        ensures any_moment_of_error { IfErr result (λ e. LeavesOnly D.moment D.left_since disk e.0 (IsOpening layout.chunk layout.block layout.slots (D.seen disk) (D.may_leave disk))) }
        ensures cause { IfErr result (λ e. e.1 ≡ faults.Device → D.failed disk < D.failed e.0) }
    {
        match open_disk(alloc, &mut disk, layout) {
            Ok(found) => Ok(StoreVolume {
                disk,
                layout,
                order: found.order,
                index: found.index,
                hashed: HashedBlock::new(alloc),
            }),
            Err(fault) => Err((disk, fault)),
        }
    }
}

//! Opening a disk.

ghost use Rattle.std.specs.Prelude.{◌≡◌, ◌≤◌, false, true, length, IfOk, OnOk, IsErrOf};
ghost use Rattle.disk.specs.Device.{Only};
ghost use Rattle.disk_redo.specs.GateMoments.{LeavesOnly};
ghost use Rattle.disk_redo.specs.Redo.{IsAtRest, stands_for};
ghost use Rattle.replica_store.specs.Replicas.{ServerDisk, new_server_disk};
ghost use Rattle.disk_redo.specs.Opening.{IsOpening as IsRedoing};
ghost use Rattle.store_changes.specs.Areas.{area_of};
ghost use Rattle.store_disk.specs.Formats.{IsHeadOf, is_head_open};
ghost use Rattle.store_disk.specs.Places.{disk_size};
ghost use Rattle.chunk_store.specs.Faults.{MayFail};
ghost use Rattle.chunk_store.specs.Opening.{HoldsReplicas, IsFound, IsOpening};
ghost use Rattle.chunk_store.specs.declared.fault.OpenFault.TheVariants as faults;
ghost use Rattle.store_disk.specs.Stored.{IsStored};

use crate::fault::OpenFault;
use crate::found::FoundReplicas;
use crate::heads::{is_head, is_open, read_head};
use crate::slots_reading::open_formatted;
use disk::Disk;
use std::alloc::Global;
use store_disk::{Layout, format};

// Formats a disk whose head is closed, and opens it.
fn open_new<D: Disk>(
    alloc: Global,
    disk: &mut D,
    layout: Layout,
) -> Result<FoundReplicas, OpenFault>
    requires size { disk_size layout.chunk layout.block layout.slots ≤ length (D.seen disk.old) }
    requires closed { is_head_open (D.seen disk.old) ≡ false }
    requires durable { Only (D.seen disk.old) (D.may_leave disk.old) }
    ensures rest { OnOk result (IsAtRest D.seen D.may_leave (area_of layout.chunk layout.block) disk.new) }
    ensures large { OnOk result (disk_size layout.chunk layout.block layout.slots ≤ length (D.seen disk.new)) }
    ensures found { IfOk result (λ found. IsFound layout.chunk layout.block layout.slots found (stands_for (area_of layout.chunk layout.block) (D.seen disk.new)) (new_server_disk layout.chunk layout.block layout.slots)) }
    ensures undamaged { IsErrOf result faults.Damaged → ⊥ }
    ensures held { HoldsReplicas layout.chunk layout.block layout.slots (D.seen disk.new) (new_server_disk layout.chunk layout.block layout.slots) }
    ensures any_moment { LeavesOnly D.moment D.left_since disk.old disk.new (IsOpening layout.chunk layout.block layout.slots (D.seen disk.old) (D.may_leave disk.old)) }
    ensures cause { MayFail (D.failed disk.old) (D.failed disk.new) result }
{
    format(alloc, disk, layout)?;
    Ok(open_formatted(alloc, disk, layout)?)
}

// Opens a disk whose head is open; `head` is its first 32 bytes.
fn open_headed<D: Disk>(
    alloc: Global,
    disk: &mut D,
    layout: Layout,
    head: &[u8],
) -> Result<FoundReplicas, OpenFault>
    requires size { disk_size layout.chunk layout.block layout.slots ≤ length (D.seen disk.old) }
    requires count { length head.now ≡ 32 }
    ensures rest { OnOk result (IsAtRest D.seen D.may_leave (area_of layout.chunk layout.block) disk.new) }
    ensures large { OnOk result (disk_size layout.chunk layout.block layout.slots ≤ length (D.seen disk.new)) }
    ensures found { IfOk result (λ found. (d : ServerDisk) → IsStored layout.chunk layout.block layout.slots (stands_for (area_of layout.chunk layout.block) (D.seen disk.old)) d → IsFound layout.chunk layout.block layout.slots found (stands_for (area_of layout.chunk layout.block) (D.seen disk.new)) d) }
    ensures undamaged { IsHeadOf layout.chunk layout.block layout.slots head.now → IsErrOf result faults.Damaged → ⊥ }
    ensures its_head { OnOk result (IsHeadOf layout.chunk layout.block layout.slots head.now) }
    ensures same { stands_for (area_of layout.chunk layout.block) (D.seen disk.new) ≡ stands_for (area_of layout.chunk layout.block) (D.seen disk.old) }
    ensures any_moment { LeavesOnly D.moment D.left_since disk.old disk.new (IsRedoing (area_of layout.chunk layout.block) (D.seen disk.old) (D.may_leave disk.old)) }
    ensures cause { MayFail (D.failed disk.old) (D.failed disk.new) result }
{
    if !is_head(alloc, layout, head)? {
        return Err(OpenFault::Damaged);
    }
    Ok(open_formatted(alloc, disk, layout)?)
}

/// Opens a chunkserver's disk. A disk whose head is closed is formatted, and holds no replicas.
///
/// `Damaged`: the disk is another layout's. `NoMemory`: an allocator refused what the call needs. `Device`: the disk failed in this call. After an error the disk is to be opened again.
pub fn open_disk<D: Disk>(
    alloc: Global,
    disk: &mut D,
    layout: Layout,
) -> Result<FoundReplicas, OpenFault>
    ensures rest { OnOk result (IsAtRest D.seen D.may_leave (area_of layout.chunk layout.block) disk.new) }
    ensures large { OnOk result (disk_size layout.chunk layout.block layout.slots ≤ length (D.seen disk.new)) }
    ensures found { IfOk result (λ found. (d : ServerDisk) → HoldsReplicas layout.chunk layout.block layout.slots (D.seen disk.old) d
        → IsFound layout.chunk layout.block layout.slots found (stands_for (area_of layout.chunk layout.block) (D.seen disk.new)) d) }
    // An open head that isn't this layout's is refused, and nothing else but a disk that is too small: a new disk never is.
    ensures its_head { is_head_open (D.seen disk.old) ≡ true → OnOk result (IsHeadOf layout.chunk layout.block layout.slots (D.seen disk.old)) }
    ensures held { (d : ServerDisk) → HoldsReplicas layout.chunk layout.block layout.slots (D.seen disk.old) d → HoldsReplicas layout.chunk layout.block layout.slots (D.seen disk.new) d }
    ensures sized { OnOk result (disk_size layout.chunk layout.block layout.slots ≤ length (D.seen disk.old)) }
    ensures undamaged { disk_size layout.chunk layout.block layout.slots ≤ length (D.seen disk.old) → (is_head_open (D.seen disk.old) ≡ true → IsHeadOf layout.chunk layout.block layout.slots (D.seen disk.old)) → IsErrOf result faults.Damaged → ⊥ }
    ensures any_moment { LeavesOnly D.moment D.left_since disk.old disk.new (IsOpening layout.chunk layout.block layout.slots (D.seen disk.old) (D.may_leave disk.old)) }
    ensures cause { MayFail (D.failed disk.old) (D.failed disk.new) result }
{
    if disk.size() < layout.disk_size() {
        return Err(OpenFault::Damaged);
    }
    let head = read_head(disk)?;
    if is_open(&head) {
        open_headed(alloc, disk, layout, &head)
    } else {
        open_new(alloc, disk, layout)
    }
}

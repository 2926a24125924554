//! A replica that goes.

ghost use Rattle.std.specs.Prelude.{◌≡◌, ◌≤◌, ◌<◌, [], ◌∷◌, length, IfOk, OnOk, Some};
ghost use Rattle.std.specs.FinMap as map;
ghost use Rattle.disk.specs.Device.{HasCause};
ghost use Rattle.disk_redo.specs.Redo.{IsAtRest};
ghost use Rattle.replica_store.specs.declared.change.StoreChange.TheVariants.{Remove};
ghost use Rattle.store_changes.specs.Areas.{area_of};
ghost use Rattle.store_changes.specs.Changing.{IsChanged, LeavesEither};
ghost use Rattle.store_disk.specs.Places.{disk_size, slot_place};

use crate::making::{change, one_range};
use bytes::Bytes;
use disk::{Disk, DiskFault};
use disk_redo::RedoRange;
use gfs_types::ids::Handle;
use std::alloc::{AllocError, Global};
use store_disk::{HeldReplica, Layout, SlotIndex};

fn remove_ranges(alloc: Global, layout: Layout, slot: u32) -> Result<Vec<RedoRange>, AllocError>
    requires { slot < layout.slots }
    ensures { IfOk result (λ v. v.items ≡ record { place = slot_place layout.chunk layout.block slot; bytes = 0 ∷ [] } ∷ []) }
{
    let unused = Bytes::copy_from_slice(alloc, &[0])?;
    one_range(alloc, layout.slot(slot), unused)
}

/// Removes a replica. Its slot is free again.
///
/// A stop at any moment, and an error, leave a disk with the replica or without it. After an error the disk is to be opened again.
pub fn remove<D: Disk>(
    alloc: Global,
    disk: &mut D,
    layout: Layout,
    index: &mut SlotIndex,
    handle: Handle,
    found: HeldReplica,
) -> Result<(), DiskFault>
    requires size { disk_size layout.chunk layout.block layout.slots ≤ length (D.seen disk.old) }
    requires rest { IsAtRest D.seen D.may_leave (area_of layout.chunk layout.block) disk.old }
    requires found { map.get index.old.held handle.0 ≡ Some found }
    requires slot { found.slot < layout.slots }
    ensures rest { OnOk result (IsAtRest D.seen D.may_leave (area_of layout.chunk layout.block) disk.new) }
    ensures made { OnOk result (IsChanged layout.chunk layout.block layout.slots index.old (D.seen disk.old) index.new (D.seen disk.new) (Remove handle)) }
    ensures any_moment { LeavesEither D.seen D.moment D.left_since layout.chunk layout.block layout.slots disk.old disk.new index.old (Remove handle) }
    ensures size { length (D.seen disk.new) ≡ length (D.seen disk.old) }
    ensures cause { HasCause (D.failed disk.old) (D.failed disk.new) result }
{
    let ranges = remove_ranges(alloc, layout, found.slot)?;
    index.remove(handle)?;
    change(disk, layout, &ranges)
}

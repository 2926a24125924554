//! A byte of a replica that rots.

ghost use Rattle.std.specs.Prelude.{◌≡◌, ◌≤◌, ◌<◌, ◌+◌, [], ◌∷◌, length, IfOk, OnOk, Some};
ghost use Rattle.std.specs.FinMap as map;
ghost use Rattle.disk.specs.Device.{HasCause};
ghost use Rattle.disk_redo.specs.Redo.{IsAtRest};
ghost use Rattle.replica_store.specs.declared.change.StoreChange.TheVariants.{Rot};
ghost use Rattle.store_changes.specs.Areas.{area_of};
ghost use Rattle.store_changes.specs.Changing.{IsChanged, LeavesEither};
ghost use Rattle.store_disk.specs.Places.{data_place, disk_size};

use crate::{change, one_range};
use bytes::Bytes;
use disk::{Disk, DiskFault};
use disk_redo::RedoRange;
use gfs_types::ids::Handle;
use std::alloc::{AllocError, Global};
use store_disk::{HeldReplica, Layout, SlotIndex};

fn rotten_ranges(
    alloc: Global,
    layout: Layout,
    slot: u32,
    place: usize,
    byte: u8,
) -> Result<Vec<RedoRange>, AllocError>
    requires slot { slot < layout.slots }
    requires place { place < layout.chunk }
    ensures { IfOk result (λ v. v.items ≡ record { place = data_place layout.chunk layout.block slot + place; bytes = byte ∷ [] } ∷ []) }
{
    let rotten = Bytes::copy_from_slice(alloc, &[byte])?;
    one_range(alloc, layout.chunk_bytes(slot) + place, rotten)
}

/// A byte of a replica becomes another on the disk, past its digest, as a failing disk might do.
///
/// A stop at any moment, and an error, leave a disk with the byte before or with this one. After an error the disk is to be opened again.
pub fn rot<D: Disk>(
    alloc: Global,
    disk: &mut D,
    layout: Layout,
    index: &SlotIndex,
    handle: Handle,
    found: HeldReplica,
    place: usize,
    byte: u8,
) -> Result<(), DiskFault>
    requires size { disk_size layout.chunk layout.block layout.slots ≤ length (D.seen disk.old) }
    requires rest { IsAtRest D.seen D.may_leave (area_of layout.chunk layout.block) disk.old }
    requires found { map.get index.now.held handle.0 ≡ Some found }
    requires slot { found.slot < layout.slots }
    requires place { place < layout.chunk }
    ensures rest { OnOk result (IsAtRest D.seen D.may_leave (area_of layout.chunk layout.block) disk.new) }
    ensures made { OnOk result (IsChanged layout.chunk layout.block layout.slots index.now (D.seen disk.old) index.now (D.seen disk.new) (Rot handle place byte)) }
    ensures any_moment { LeavesEither D.seen D.moment D.left_since layout.chunk layout.block layout.slots disk.old disk.new index.now (Rot handle place byte) }
    ensures size { length (D.seen disk.new) ≡ length (D.seen disk.old) }
    ensures cause { HasCause (D.failed disk.old) (D.failed disk.new) result }
{
    let ranges = rotten_ranges(alloc, layout, found.slot, place, byte)?;
    change(disk, layout, &ranges)
}

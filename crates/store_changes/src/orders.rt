//! The number of the last order.

ghost use Rattle.std.specs.Prelude.{◌≡◌, ◌≤◌, [], ◌∷◌, length, IfOk, OnOk};
ghost use Rattle.disk.specs.Device.{HasCause};
ghost use Rattle.disk_redo.specs.Redo.{IsAtRest};
ghost use Rattle.replica_store.specs.declared.change.StoreChange.TheVariants.{SetOrder};
ghost use Rattle.store_disk.specs.Index.{IndexState};
ghost use Rattle.store_changes.specs.Areas.{area_of};
ghost use Rattle.store_changes.specs.Changing.{IsChanged, LeavesEither};
ghost use Rattle.store_disk.specs.Fields.{FitsOrder, order_bytes};
ghost use Rattle.store_disk.specs.Places.{disk_size};

use crate::making::{change, one_range};
use disk::{Disk, DiskFault};
use disk_redo::RedoRange;
use gfs_types::ids::OrderNo;
use std::alloc::{AllocError, Global};
use store_disk::{Layout, write_order};

fn order_ranges(alloc: Global, order: OrderNo) -> Result<Vec<RedoRange>, AllocError>
    ensures ranges { IfOk result (λ v. v.items ≡ record { place = 32; bytes = order_bytes order } ∷ []) }
    ensures fits { FitsOrder order }
{
    let _numbers = (order.epoch, order.count);
    one_range(alloc, 32, write_order(alloc, order)?)
}

/// Keeps the number of the last order that was taken.
///
/// A stop at any moment, and an error, leave a disk with the number before or with this one. After an error the disk is to be opened again.
pub fn set_order<D: Disk>(
    alloc: Global,
    disk: &mut D,
    layout: Layout,
    order: OrderNo,
) -> Result<(), DiskFault>
    requires size { disk_size layout.chunk layout.block layout.slots ≤ length (D.seen disk.old) }
    requires rest { IsAtRest D.seen D.may_leave (area_of layout.chunk layout.block) disk.old }
    ensures rest { OnOk result (IsAtRest D.seen D.may_leave (area_of layout.chunk layout.block) disk.new) }
    ensures made { OnOk result ((index : IndexState) → IsChanged layout.chunk layout.block layout.slots index (D.seen disk.old) index (D.seen disk.new) (SetOrder order)) }
    ensures any_moment { (index : IndexState) → LeavesEither D.seen D.moment D.left_since layout.chunk layout.block layout.slots disk.old disk.new index (SetOrder order) }
    ensures size { length (D.seen disk.new) ≡ length (D.seen disk.old) }
    ensures cause { HasCause (D.failed disk.old) (D.failed disk.new) result }
{
    let ranges = order_ranges(alloc, order)?;
    change(disk, layout, &ranges)
}

//! A replica under a new version.

ghost use Rattle.std.specs.Prelude.{◌≡◌, ◌≤◌, ◌<◌, [], ◌∷◌, length, IfOk, OnOk, Some};
ghost use Rattle.std.specs.FinMap as map;
ghost use Rattle.disk.specs.Device.{HasCause};
ghost use Rattle.disk_redo.specs.Redo.{IsAtRest};
ghost use Rattle.replica_store.specs.declared.change.StoreChange.TheVariants.{Raise};
ghost use Rattle.store_changes.specs.Areas.{area_of};
ghost use Rattle.store_changes.specs.Changing.{IsChanged, LeavesEither};
ghost use Rattle.store_disk.specs.Fields.{FitsHeader, header_bytes};
ghost use Rattle.store_disk.specs.Places.{disk_size, slot_place};
ghost use Rattle.store_disk.specs.Stored.{header_of, raised_row};

use crate::making::{change, one_range};
use disk::{Disk, DiskFault};
use disk_redo::RedoRange;
use gfs_types::ids::{Handle, Serial, Version};
use replica_store::row::Row;
use std::alloc::{AllocError, Global};
use store_disk::{HeldReplica, Layout, SlotHeader, SlotIndex, write_header};

fn raised_header(handle: Handle, version: Version, row: Row) -> SlotHeader
    ensures value { result ≡ header_of handle.0 (raised_row version.0 row) }
    ensures fits { FitsHeader (header_of handle.0 (raised_row version.0 row)) }
{
    let _numbers = (handle.0, version.0, row.count);
    SlotHeader {
        handle,
        version,
        serial: Serial(0),
        count: row.count,
    }
}

fn raise_ranges(
    alloc: Global,
    layout: Layout,
    handle: Handle,
    found: HeldReplica,
    version: Version,
) -> Result<Vec<RedoRange>, AllocError>
    requires { found.slot < layout.slots }
    ensures ranges { IfOk result (λ v. v.items ≡ record { place = slot_place layout.chunk layout.block found.slot; bytes = header_bytes (header_of handle.0 (raised_row version.0 found.row)) } ∷ []) }
    ensures fits { FitsHeader (header_of handle.0 (raised_row version.0 found.row)) }
{
    let header = raised_header(handle, version, found.row);
    let bytes = write_header(alloc, header)?;
    one_range(alloc, layout.slot(found.slot), bytes)
}

/// Gives a replica a new version, under which serials begin anew.
///
/// A stop at any moment, and an error, leave a disk with the replica under the version before or under this one. After an error the disk is to be opened again.
pub fn raise<D: Disk>(
    alloc: Global,
    disk: &mut D,
    layout: Layout,
    index: &mut SlotIndex,
    handle: Handle,
    found: HeldReplica,
    version: Version,
) -> Result<(), DiskFault>
    requires size { disk_size layout.chunk layout.block layout.slots ≤ length (D.seen disk.old) }
    requires rest { IsAtRest D.seen D.may_leave (area_of layout.chunk layout.block) disk.old }
    requires found { map.get index.old.held handle.0 ≡ Some found }
    requires slot { found.slot < layout.slots }
    ensures rest { OnOk result (IsAtRest D.seen D.may_leave (area_of layout.chunk layout.block) disk.new) }
    ensures made { OnOk result (IsChanged layout.chunk layout.block layout.slots index.old (D.seen disk.old) index.new (D.seen disk.new) (Raise handle version)) }
    ensures any_moment { LeavesEither D.seen D.moment D.left_since layout.chunk layout.block layout.slots disk.old disk.new index.old (Raise handle version) }
    ensures size { length (D.seen disk.new) ≡ length (D.seen disk.old) }
    ensures cause { HasCause (D.failed disk.old) (D.failed disk.new) result }
{
    let ranges = raise_ranges(alloc, layout, handle, found, version)?;
    let row = Row {
        version,
        serial: Serial(0),
        count: found.row.count,
    };
    index.update(
        handle,
        HeldReplica {
            slot: found.slot,
            row,
        },
    )?;
    change(disk, layout, &ranges)
}

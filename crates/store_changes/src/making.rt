//! A change of a chunkserver's disk, through its redo area.

ghost use Rattle.std.specs.Prelude.{◌≡◌, ◌≤◌, [], ◌∷◌, length, IfOk, OnOk};
ghost use Rattle.disk.specs.Device.{HasCause};
ghost use Rattle.disk_redo.specs.Changes.{applied};
ghost use Rattle.disk_redo.specs.Redo.{FitsArea, IsAtRest, IsBeforeOrAfter, StandsOnly, stands_for};
ghost use Rattle.store_changes.specs.Areas.{area_of};
ghost use Rattle.store_disk.specs.Places.{disk_size};

use bytes::Bytes;
use disk::{Disk, DiskFault};
use disk_redo::{RedoArea, RedoRange, commit};
use std::alloc::{AllocError, Global};
use store_disk::Layout;

fn redo_area_of(layout: Layout) -> RedoArea
    ensures { result ≡ area_of layout.chunk layout.block }
{
    RedoArea {
        place: 48,
        size: layout.redo_size(),
        first: 32,
    }
}

/// A change of one range.
pub fn one_range(alloc: Global, place: usize, bytes: Bytes) -> Result<Vec<RedoRange>, AllocError>
    ensures { IfOk result (λ v. v.items ≡ record { place = place; bytes = bytes } ∷ []) }
{
    let mut ranges = Vec::new(alloc);
    ranges.push(RedoRange { place, bytes })?;
    Ok(ranges)
}

/// Makes a change of a server's disk: all its ranges, or none.
pub fn change<D: Disk>(disk: &mut D, layout: Layout, ranges: &[RedoRange]) -> Result<(), DiskFault>
    requires size { disk_size layout.chunk layout.block layout.slots ≤ length (D.seen disk.old) }
    requires rest { IsAtRest D.seen D.may_leave (area_of layout.chunk layout.block) disk.old }
    requires fits { FitsArea (area_of layout.chunk layout.block) (length (D.seen disk.old)) ranges.now }
    ensures rest { OnOk result (IsAtRest D.seen D.may_leave (area_of layout.chunk layout.block) disk.new) }
    ensures made { OnOk result (stands_for (area_of layout.chunk layout.block) (D.seen disk.new) ≡ applied ranges.now (stands_for (area_of layout.chunk layout.block) (D.seen disk.old))) }
    ensures any_moment { StandsOnly D.seen D.moment D.left_since (area_of layout.chunk layout.block) disk.old disk.new (IsBeforeOrAfter ranges.now (stands_for (area_of layout.chunk layout.block) (D.seen disk.old))) }
    ensures size { length (D.seen disk.new) ≡ length (D.seen disk.old) }
    ensures cause { HasCause (D.failed disk.old) (D.failed disk.new) result }
{
    let area = redo_area_of(layout);
    let _blocks = layout.blocks();
    commit(disk, area, ranges)
}

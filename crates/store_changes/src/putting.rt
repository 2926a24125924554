//! A new replica.

ghost use Rattle.std.specs.Prelude.{◌≡◌, ◌≤◌, ◌<◌, ℕ, List, [], ◌∷◌, length, IfOk, OnOk, None};
ghost use Rattle.std.specs.FinMap as map;
ghost use Rattle.disk.specs.Device.{HasCause};
ghost use Rattle.disk_redo.specs.Redo.{IsAtRest};
ghost use Rattle.replica_store.specs.declared.change.StoreChange.TheVariants.{Put};
ghost use Rattle.replica_store.specs.Replicas.{filled_to};
ghost use Rattle.store_disk.specs.Index.{IndexState, index_with};
ghost use Rattle.store_changes.specs.Areas.{area_of};
ghost use Rattle.store_changes.specs.Changing.{IsChanged, LeavesEither};
ghost use Rattle.store_disk.specs.Fields.{FitsHeader};
ghost use Rattle.store_disk.specs.Places.{disk_size, slot_place};
ghost use Rattle.store_disk.specs.Stored.{header_of, slot_bytes};

use crate::making::{change, one_range};
use bytes::Bytes;
use disk::{Disk, DiskFault};
use disk_redo::RedoRange;
use gfs_types::ids::Handle;
use replica_store::row::Row;
use std::alloc::{AllocError, Global};
use store_disk::{HashedBlock, Layout, SlotHeader, digests_of_blocks, write_header};

// The bytes, and zeros up to the chunk's end.
fn whole_chunk(alloc: Global, layout: Layout, bytes: &[u8]) -> Result<Vec<u8>, AllocError>
    requires { length bytes.now ≤ layout.chunk }
    ensures { IfOk result (λ v. v.items ≡ filled_to layout.chunk bytes.now) }
{
    let mut all = Vec::with_capacity(alloc, layout.chunk as usize)?;
    all.extend_from_slice(bytes)?;
    all.resize(layout.chunk as usize, 0)?;
    Ok(all)
}

fn slot_content(
    alloc: Global,
    layout: Layout,
    header: SlotHeader,
    bytes: &[u8],
) -> Result<Bytes, AllocError>
    requires { length bytes.now ≤ layout.chunk }
    ensures { IfOk result (λ b. b ≡ slot_bytes layout.chunk layout.block header bytes.now) }
{
    let all = whole_chunk(alloc, layout, bytes)?;
    let mut hashed = HashedBlock::new(alloc);
    let block = layout.block as usize;
    let digests = digests_of_blocks(alloc, &mut hashed, block, layout.blocks(), &all)?;
    let head = write_header(alloc, header)?;
    let mut out = Vec::with_capacity(alloc, layout.slot_size())?;
    out.extend_from_slice(&head)?;
    out.extend_from_slice(&digests)?;
    out.extend_from_slice(&all)?;
    Ok(Bytes::from_vec(out)?)
}

fn new_header(handle: Handle, row: Row) -> SlotHeader
    ensures value { result ≡ header_of handle.0 row }
    ensures fits { FitsHeader (header_of handle.0 row) }
{
    let _numbers = (handle.0, row.version.0, row.serial.0, row.count);
    SlotHeader {
        handle,
        version: row.version,
        serial: row.serial,
        count: row.count,
    }
}

fn put_ranges(
    alloc: Global,
    layout: Layout,
    slot: u32,
    handle: Handle,
    row: Row,
    bytes: &[u8],
) -> Result<Vec<RedoRange>, AllocError>
    requires slot { slot < layout.slots }
    requires within { length bytes.now ≤ layout.chunk }
    ensures ranges { IfOk result (λ v. v.items ≡ record { place = slot_place layout.chunk layout.block slot; bytes = slot_bytes layout.chunk layout.block (header_of handle.0 row) bytes.now } ∷ []) }
    ensures fits { FitsHeader (header_of handle.0 row) }
{
    let header = new_header(handle, row);
    let content = slot_content(alloc, layout, header, bytes)?;
    one_range(alloc, layout.slot(slot), content)
}

/// Stores a new replica in a slot, which is the first of the free ones.
///
/// A stop at any moment, and an error, leave a disk without the replica or with it. After an error the disk is to be opened again.
pub fn put_in_slot<D: Disk>(
    alloc: Global,
    disk: &mut D,
    layout: Layout,
    slot: u32,
    handle: Handle,
    row: Row,
    bytes: &[u8],
) -> Result<(), DiskFault>
    requires size { disk_size layout.chunk layout.block layout.slots ≤ length (D.seen disk.old) }
    requires rest { IsAtRest D.seen D.may_leave (area_of layout.chunk layout.block) disk.old }
    requires slot { slot < layout.slots }
    requires within { length bytes.now ≤ layout.chunk }
    requires count { row.count ≡ length bytes.now }
    ensures rest { OnOk result (IsAtRest D.seen D.may_leave (area_of layout.chunk layout.block) disk.new) }
    ensures made { OnOk result ((index : IndexState) (rest : List ℕ) → map.get index.held handle.0 ≡ None → index.free ≡ slot ∷ rest
        → IsChanged layout.chunk layout.block layout.slots index (D.seen disk.old) (index_with index handle.0 row (slot ∷ rest)) (D.seen disk.new) (Put handle row.version row.serial bytes.now)) }
    ensures any_moment { (index : IndexState) (rest : List ℕ) → map.get index.held handle.0 ≡ None → index.free ≡ slot ∷ rest
        → LeavesEither D.seen D.moment D.left_since layout.chunk layout.block layout.slots disk.old disk.new index (Put handle row.version row.serial bytes.now) }
    ensures size { length (D.seen disk.new) ≡ length (D.seen disk.old) }
    ensures cause { HasCause (D.failed disk.old) (D.failed disk.new) result }
{
    let ranges = put_ranges(alloc, layout, slot, handle, row, bytes)?;
    change(disk, layout, &ranges)
}

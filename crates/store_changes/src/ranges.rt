//! What is written where a part of a replica is written over.

ghost use Rattle.std.specs.Prelude.{◌≡◌, ◌≤◌, ◌<◌, ◌+◌, ◌*◌, ◌/◌, ◌-◌, ◌%◌, [], ◌∷◌, ◌++◌, length, IfOk};
ghost use Rattle.replica_store.specs.Replicas.{digests_of};
ghost use Rattle.store_disk.specs.Fields.{FitsHeader};
ghost use Rattle.store_disk.specs.Places.{blocks_of};
ghost use Rattle.store_changes.specs.Writing.{header_range_of, written_ranges};
ghost use Rattle.store_disk.specs.Stored.{header_of as header_value};

use crate::{Edges, one_range};
use bytes::Bytes;
use disk_redo::RedoRange;
use gfs_types::ids::Handle;
use replica_store::row::Row;
use std::alloc::{AllocError, Global};
use store_disk::{HashedBlock, Layout, SlotHeader, digests_of_blocks, write_header};

fn header_of(handle: Handle, row: Row) -> SlotHeader
    ensures value { result ≡ header_value handle.0 row }
    ensures fits { FitsHeader (header_value handle.0 row) }
{
    let _numbers = (handle.0, row.version.0, row.serial.0, row.count);
    SlotHeader {
        handle,
        version: row.version,
        serial: row.serial,
        count: row.count,
    }
}

/// The header of a slot.
pub(crate) fn header_range(
    alloc: Global,
    layout: Layout,
    slot: u32,
    handle: Handle,
    row: Row,
) -> Result<Vec<RedoRange>, AllocError>
    requires { slot < layout.slots }
    ensures ranges { IfOk result (λ v. v.items ≡ header_range_of layout.chunk layout.block slot handle.0 row ∷ []) }
    ensures fits { FitsHeader (header_value handle.0 row) }
{
    let header = header_of(handle, row);
    one_range(alloc, layout.slot(slot), write_header(alloc, header)?)
}

/// The digests of the blocks from one to before another, once these bytes lie between the edges.
pub(crate) fn new_digests(
    alloc: Global,
    hashed: &mut HashedBlock,
    layout: Layout,
    edges: &Edges,
    bytes: &[u8],
    count: usize,
) -> Result<Bytes, AllocError>
    requires enough { count * layout.block ≤ length edges.now.before + length bytes.now + length edges.now.after }
    requires few { count * layout.block ≤ layout.chunk }
    ensures { IfOk result (λ b. b ≡ digests_of layout.block count (edges.now.before ++ bytes.now ++ edges.now.after)) }
{
    let mut content = Vec::with_capacity(alloc, count * layout.block as usize)?;
    content.extend_from_slice(&edges.before)?;
    content.extend_from_slice(bytes)?;
    content.extend_from_slice(&edges.after)?;
    let digests = digests_of_blocks(alloc, hashed, layout.block as usize, count, &content)?;
    Ok(Bytes::from_vec(digests)?)
}

/// The header, the digests of the touched blocks, and the bytes.
pub(crate) fn write_ranges(
    alloc: Global,
    hashed: &mut HashedBlock,
    layout: Layout,
    slot: u32,
    handle: Handle,
    row: Row,
    edges: &Edges,
    offset: usize,
    bytes: &Bytes,
) -> Result<Vec<RedoRange>, AllocError>
    requires slot { slot < layout.slots }
    requires whole { layout.chunk % layout.block ≡ 0 }
    requires some { 1 ≤ length bytes.now }
    requires within { offset + length bytes.now ≤ layout.chunk }
    requires before { length edges.now.before ≡ offset % layout.block }
    requires after { length edges.now.after ≡ (offset + length bytes.now - 1) / layout.block * layout.block + layout.block - (offset + length bytes.now) }
    ensures ranges { IfOk result (λ v. v.items ≡ written_ranges layout.chunk layout.block slot handle.0 row edges.now offset bytes.now) }
    ensures fits { FitsHeader (header_value handle.0 row) }
{
    let block = layout.block as usize;
    let first = offset / block;
    let count = (offset + bytes.len() - 1) / block + 1 - first;
    let digests = new_digests(alloc, hashed, layout, edges, bytes, count)?;
    let mut ranges = header_range(alloc, layout, slot, handle, row)?;
    ranges.push(RedoRange {
        place: layout.digests(slot) + 32 * first,
        bytes: digests,
    })?;
    ranges.push(RedoRange {
        place: layout.chunk_bytes(slot) + offset,
        bytes: bytes.clone()?,
    })?;
    Ok(ranges)
}

//! The first and the last block of a range that is written over.

ghost use Rattle.std.specs.Prelude.{◌≡◌, ◌≤◌, ◌<◌, ◌+◌, ◌*◌, ◌%◌, ◌==◌, ◌&&◌, if◌then◌else◌, ℕ, length, IfOk, IfSome, Some, None};
ghost use Rattle.disk.specs.Device.{HasCause};
ghost use Rattle.disk_redo.specs.GateMoments.{OnlyReads};
ghost use Rattle.replica_store.specs.Replicas.{Replica, block_in, block_matches};
ghost use Rattle.store_disk.specs.Places.{blocks_of, disk_size};
ghost use Rattle.store_changes.specs.Reading.{checked_part};
ghost use Rattle.store_changes.specs.Edging.{AreLong, checked_edges};
ghost use Rattle.store_disk.specs.Stored.{Holds};

use crate::read_blocks;
use bytes::Bytes;
use disk::{Disk, DiskFault};
use std::alloc::Global;
use store_disk::{HashedBlock, Layout};

/// What stays of the first and the last block of a range: the bytes before it, and those after it.
#[derive(Drop)]
pub struct Edges {
    pub before: Bytes,
    pub after: Bytes,
}

// Whether no block keeps a part.
fn is_aligned(block: usize, offset: usize, end: usize) -> bool
    requires { 1 ≤ block }
    ensures { result ≡ (((offset % block) == 0) && ((end % block) == 0)) }
{
    offset % block == 0 && end % block == 0
}

// The last block of a range whose first one was read.
fn read_last<D: Disk>(
    alloc: Global,
    disk: &mut D,
    hashed: &mut HashedBlock,
    layout: Layout,
    slot: u32,
    one: &Bytes,
    first: usize,
    last: usize,
) -> Result<Option<Bytes>, DiskFault>
    requires size { disk_size layout.chunk layout.block layout.slots ≤ length (D.seen disk.old) }
    requires slot { slot < layout.slots }
    requires within { last < blocks_of layout.chunk layout.block }
    requires long { length one.now ≡ layout.block }
    ensures last { IfOk result (λ o. (handle : ℕ) (r : Replica) → Holds layout.chunk layout.block (D.seen disk.old) slot handle r
        → Some one.now ≡ checked_part layout.block r (first * layout.block) ((first + 1) * layout.block)
        → o ≡ checked_part layout.block r (last * layout.block) ((last + 1) * layout.block)) }
    ensures long { IfOk result (λ o. IfSome o (λ bytes. length bytes ≡ layout.block)) }
    ensures reads { OnlyReads D.seen D.may_leave D.moment D.left_since disk.old disk.new }
    ensures cause { HasCause (D.failed disk.old) (D.failed disk.new) result }
{
    if first == last {
        return Ok(Some(one.clone()?));
    }
    read_blocks(alloc, disk, hashed, layout, slot, last, 1)
}

// The first and the last block of a range. `None` where one of them doesn't match its digest.
fn read_ends<D: Disk>(
    alloc: Global,
    disk: &mut D,
    hashed: &mut HashedBlock,
    layout: Layout,
    slot: u32,
    first: usize,
    last: usize,
) -> Result<Option<(Bytes, Bytes)>, DiskFault>
    requires size { disk_size layout.chunk layout.block layout.slots ≤ length (D.seen disk.old) }
    requires slot { slot < layout.slots }
    requires order { first ≤ last }
    requires within { last < blocks_of layout.chunk layout.block }
    ensures ends { IfOk result (λ o. (handle : ℕ) (r : Replica) → Holds layout.chunk layout.block (D.seen disk.old) slot handle r
        → o ≡ (if block_matches layout.block r first && block_matches layout.block r last then Some (block_in layout.block first r.bytes, block_in layout.block last r.bytes) else None)) }
    ensures long { IfOk result (λ o. IfSome o (λ ends. (length ends.0 ≡ layout.block) × (length ends.1 ≡ layout.block))) }
    ensures reads { OnlyReads D.seen D.may_leave D.moment D.left_since disk.old disk.new }
    ensures cause { HasCause (D.failed disk.old) (D.failed disk.new) result }
{
    let Some(one) = read_blocks(alloc, disk, hashed, layout, slot, first, 1)? else {
        return Ok(None);
    };
    let Some(two) = read_last(alloc, disk, hashed, layout, slot, &one, first, last)? else {
        return Ok(None);
    };
    Ok(Some((one, two)))
}

/// What stays of the first and the last block of the range from `offset` to before `end`. `None` where part of a block is written over, and the first or the last one doesn't match its digest.
pub fn read_edges<D: Disk>(
    alloc: Global,
    disk: &mut D,
    hashed: &mut HashedBlock,
    layout: Layout,
    slot: u32,
    offset: usize,
    end: usize,
) -> Result<Option<Edges>, DiskFault>
    requires size { disk_size layout.chunk layout.block layout.slots ≤ length (D.seen disk.old) }
    requires slot { slot < layout.slots }
    requires whole { layout.chunk % layout.block ≡ 0 }
    requires some { offset < end }
    requires within { end ≤ layout.chunk }
    ensures edges { IfOk result (λ o. (handle : ℕ) (r : Replica) → Holds layout.chunk layout.block (D.seen disk.old) slot handle r
        → o ≡ checked_edges layout.block r offset end) }
    ensures long { IfOk result (λ o. IfSome o (AreLong layout.block offset end)) }
    ensures reads { OnlyReads D.seen D.may_leave D.moment D.left_since disk.old disk.new }
    ensures cause { HasCause (D.failed disk.old) (D.failed disk.new) result }
{
    let block = layout.block as usize;
    if is_aligned(block, offset, end) {
        return Ok(Some(Edges {
            before: Bytes::new(),
            after: Bytes::new(),
        }));
    }
    let last = (end - 1) / block;
    let Some(ends) = read_ends(alloc, disk, hashed, layout, slot, offset / block, last)? else {
        return Ok(None);
    };
    let before = ends.0.slice(..offset % block)?;
    let after = ends.1.slice(end - last * block..)?;
    Ok(Some(Edges { before, after }))
}

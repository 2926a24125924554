//! Blocks of a replica, which are checked as they are read.

ghost use Rattle.std.specs.Prelude.{◌≡◌, ◌≤◌, ◌<◌, ◌+◌, ◌*◌, ◌-◌, ◌%◌, ℕ, drop, length, take, IfOk, IfSome};
ghost use Rattle.disk.specs.Device.{HasCause};
ghost use Rattle.disk_redo.specs.GateMoments.{OnlyReads};
ghost use Rattle.replica_store.specs.Replicas.{Replica};
ghost use Rattle.store_disk.specs.Places.{blocks_of, disk_size};
ghost use Rattle.store_changes.specs.Reading.{checked_part};
ghost use Rattle.store_disk.specs.Stored.{Holds};

use crate::parts::read_part;
use bytes::Bytes;
use disk::{Disk, DiskFault};
use std::alloc::{AllocError, Global};
use store_disk::{HashedBlock, Layout, blocks_match};

/// So many blocks of the replica in a slot, from one on. `None` where one of them doesn't match its digest.
pub fn read_blocks<D: Disk>(
    alloc: Global,
    disk: &mut D,
    hashed: &mut HashedBlock,
    layout: Layout,
    slot: u32,
    first: usize,
    count: usize,
) -> Result<Option<Bytes>, DiskFault>
    requires size { disk_size layout.chunk layout.block layout.slots ≤ length (D.seen disk.old) }
    requires slot { slot < layout.slots }
    requires some { 1 ≤ count }
    requires within { first + count ≤ blocks_of layout.chunk layout.block }
    ensures blocks { IfOk result (λ o. (handle : ℕ) (r : Replica) → Holds layout.chunk layout.block (D.seen disk.old) slot handle r
        → o ≡ checked_part layout.block r (first * layout.block) ((first + count) * layout.block)) }
    ensures size { IfOk result (λ o. IfSome o (λ bytes. length bytes ≡ count * layout.block)) }
    ensures reads { OnlyReads D.seen D.may_leave D.moment D.left_since disk.old disk.new }
    ensures cause { HasCause (D.failed disk.old) (D.failed disk.new) result }
{
    let block = layout.block as usize;
    let place = layout.chunk_bytes(slot) + first * block;
    let bytes = read_part(alloc, disk, place, count * block)?;
    let digests_place = layout.digests(slot) + 32 * first;
    let digests = read_part(alloc, disk, digests_place, 32 * count)?;
    if blocks_match(alloc, hashed, block, count, &bytes, &digests)? {
        Ok(Some(bytes))
    } else {
        Ok(None)
    }
}

// A part of some blocks. A slice of them would keep them all for as long as the answer to a read is kept.
fn copy_of(alloc: Global, bytes: &[u8], from: usize, to: usize) -> Result<Bytes, AllocError>
    requires order { from ≤ to }
    requires within { to ≤ length bytes.now }
    ensures { IfOk result (λ b. b ≡ take (to - from) (drop from bytes.now)) }
{
    Bytes::copy_from_slice(alloc, &bytes[from..to])
}

/// The bytes of the replica in a slot from `offset` to before `end`. `None` where a block that they touch doesn't match its digest.
pub fn read_range<D: Disk>(
    alloc: Global,
    disk: &mut D,
    hashed: &mut HashedBlock,
    layout: Layout,
    slot: u32,
    offset: usize,
    end: usize,
) -> Result<Option<Bytes>, DiskFault>
    requires size { disk_size layout.chunk layout.block layout.slots ≤ length (D.seen disk.old) }
    requires slot { slot < layout.slots }
    requires whole { layout.chunk % layout.block ≡ 0 }
    requires some { offset < end }
    requires within { end ≤ layout.chunk }
    ensures part { IfOk result (λ o. (handle : ℕ) (r : Replica) → Holds layout.chunk layout.block (D.seen disk.old) slot handle r
        → o ≡ checked_part layout.block r offset end) }
    ensures reads { OnlyReads D.seen D.may_leave D.moment D.left_since disk.old disk.new }
    ensures cause { HasCause (D.failed disk.old) (D.failed disk.new) result }
{
    let block = layout.block as usize;
    let first = offset / block;
    let count = (end - 1) / block + 1 - first;
    let Some(bytes) = read_blocks(alloc, disk, hashed, layout, slot, first, count)? else {
        return Ok(None);
    };
    let before = offset % block;
    Ok(Some(copy_of(alloc, &bytes, before, before + (end - offset))?))
}

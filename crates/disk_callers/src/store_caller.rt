//! Stores a replica on a disk in memory, stops the disk, and counts how many of its bytes a store on what is left reads.

ghost use Rattle.std.specs.Prelude.{◌≡◌, ◌≤◌, ◌%◌, List, ℕ, false, true, length, IfOk, Some};
ghost use Rattle.chunk_store.specs.Opening.{HoldsReplicas};
ghost use Rattle.chunk_store.specs.Stores.{IsOpen};
ghost use Rattle.disk_callers.specs.Stored.{with_one};
ghost use Rattle.replica_store.specs.Replicas.{ServerDisk, read_at};
ghost use Rattle.store_disk.specs.Formats.{is_head_open};

use anyhow::{Error, Result};
use bytes::Bytes;
use chunk_store::Store;
use chunk_store::laws::stops_leave_before_or_after;
use disk::{Disk, FuseDisk, MemDisk};
use gfs_types::ids::{Handle, Serial, Version};
use gfs_types::torn::Torn;
use std::alloc::Global;
use store_disk::Layout;

// The bytes of a disk with two slots, for chunks of 64 bytes in blocks of 16.
const SIZE: usize = 960;

/// A store on this disk.
fn open<D: Disk + Drop>(disk: D, alloc: Global, layout: Layout) -> Result<Store<D>>
    requires { layout.chunk % layout.block ≡ 0 }
    ensures open { IfOk result (λ store. (d : ServerDisk) → HoldsReplicas layout.chunk layout.block layout.slots (D.seen disk) d → IsOpen D.seen D.may_leave store d) }
    ensures is_open { IfOk result (λ store. store.is_open ≡ true) }
    ensures layout { IfOk result (λ store. store.layout ≡ layout) }
{
    match Store::open(alloc, disk, layout) {
        Ok(store) => Ok(store),
        Err((_, fault)) => Err(Error::from(fault)),
    }
}

/// A new disk with one replica, of these bytes. Whatever a stop leaves holds it.
fn put_one<D: Disk + Drop>(disk: D, alloc: Global, layout: Layout, bytes: &[u8]) -> Result<D>
    requires whole { layout.chunk % layout.block ≡ 0 }
    requires new { is_head_open (D.seen disk) ≡ false }
    requires short { length bytes.now ≤ layout.chunk }
    ensures { IfOk result (λ d. (c : List ℕ) → D.may_leave d c → HoldsReplicas layout.chunk layout.block layout.slots c (with_one layout.chunk layout.block layout.slots bytes.now)) }
{
    let mut store = open(disk, alloc, layout)?;
    store.install(alloc, Handle(5), Version(1), Serial(0), bytes)?;
    stops_leave_before_or_after::<D>();
    Ok(store.into_disk())
}

/// The bytes of that replica, of a disk that holds it.
fn read_one<D: Disk + Drop>(disk: D, alloc: Global, layout: Layout) -> Result<Bytes>
    requires { layout.chunk % layout.block ≡ 0 }
    ensures { (d : ServerDisk) → HoldsReplicas layout.chunk layout.block layout.slots (D.seen disk) d → IfOk result (λ bytes. Some bytes ≡ read_at d 5 0 layout.chunk) }
{
    let mut store = open(disk, alloc, layout)?;
    let count = u64::from(layout.chunk);
    let bytes = store.read(alloc, Handle(5), Version(1), 0, count)?;
    Ok(bytes)
}

/// Stores these bytes on a new disk, stops it, and reads them of what is left: they are the same.
fn keep_over_a_stop(
    disk: FuseDisk,
    alloc: Global,
    layout: Layout,
    bytes: &[u8],
    torn: Torn,
) -> Result<Bytes>
    requires whole { layout.chunk % layout.block ≡ 0 }
    requires new { is_head_open disk.disk.bytes ≡ false }
    requires short { length bytes.now ≤ layout.chunk }
    ensures { IfOk result (λ found. found ≡ bytes.now) }
{
    let stored = put_one(disk, alloc, layout, bytes)?;
    read_one(stored.stop(torn), alloc, layout)
}

/// How many bytes are read then.
pub fn bytes_after_a_stop(alloc: Global) -> Result<usize> {
    let layout = Layout::new(64, 16, 2);
    let disk = FuseDisk::new(MemDisk::new(alloc, SIZE)?);
    let found = keep_over_a_stop(disk, alloc, layout, b"0123456789", Torn::Byte(7))?;
    Ok(found.len())
}

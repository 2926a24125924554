//! The head of a disk.

ghost use Rattle.std.specs.Prelude.{◌≡◌, ◌≤◌, ◌↔◌, ◌==◌, length, slice_index, IfOk, IsTrue, OnOk};
ghost use Rattle.disk.specs.Bytes.{range_at};
ghost use Rattle.disk.specs.Device.{HasCause, Only};
ghost use Rattle.disk_redo.specs.GateMoments.{OnlyReads};
ghost use Rattle.store_disk.specs.Formats.{IsHeadOf};

use disk::{Disk, DiskFault};
use disk_redo::step::{begin, read, sync};
use std::alloc::{AllocError, Global};
use store_disk::{Layout, write_head};

/// The head's 32 bytes, once all is durable.
pub fn read_head<D: Disk>(disk: &mut D) -> Result<[u8; 32], DiskFault>
    requires { 32 ≤ length (D.seen disk.old) }
    ensures bytes { IfOk result (λ bytes. bytes ≡ range_at (D.seen disk.old) 0 32) }
    ensures durable { OnOk result (Only (D.seen disk.new) (D.may_leave disk.new)) }
    ensures reads { OnlyReads D.seen D.may_leave D.moment D.left_since disk.old disk.new }
    ensures cause { HasCause (D.failed disk.old) (D.failed disk.new) result }
{
    let mut bytes = [0; 32];
    begin(disk);
    sync(disk)?;
    read(disk, 0, &mut bytes)?;
    Ok(bytes)
}

/// Whether the head's gate is open.
pub fn is_open(head: &[u8]) -> bool
    requires { 32 ≤ length head.now }
    ensures { result ≡ (slice_index head.now 31 == 1) }
{
    head[31] == 1
}

/// Whether the head is this layout's.
pub fn is_head(alloc: Global, layout: Layout, bytes: &[u8]) -> Result<bool, AllocError>
    requires { 32 ≤ length bytes.now }
    ensures { IfOk result (λ is. IsTrue is ↔ IsHeadOf layout.chunk layout.block layout.slots bytes.now) }
{
    let head = write_head(alloc, layout.chunk, layout.block, layout.slots)?;
    let (front, _gate) = bytes.split_at(31);
    Ok(front == head.as_slice())
}

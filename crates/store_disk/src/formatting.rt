//! A disk without replicas.

ghost use Rattle.std.specs.Prelude.{◌≡◌, ◌≤◌, ◌<◌, ◌+◌, ◌==◌, ℕ, Bool, [], ◌∷◌, length, slice_index, true, false, IfOk, OnOk};
ghost use Rattle.disk.specs.Bytes.{put_at};
ghost use Rattle.disk.specs.Device.{HasCause, Only};
ghost use Rattle.disk_redo.specs.GateMoments.{LeavesOnly, OnlyReads};
ghost use Rattle.disk_redo.specs.Moments.{ChangesBut, Misses};
ghost use Rattle.store_disk.specs.Places.{disk_size};
ghost use Rattle.store_disk.specs.Formats.{IsBlank, IsFormatted, IsFormatting, is_head_open};

use crate::{Layout, write_head};
use disk::{Disk, DiskFault};
use disk_redo::gate::commit;
use disk_redo::step::{read, sync, write};
use std::alloc::Global;

// Whether the byte at a place is 0.
fn is_zero<D: Disk>(disk: &mut D, at: usize) -> Result<bool, DiskFault>
    requires { at + 1 ≤ length (D.seen disk.old) }
    ensures zero { IfOk result (λ is. is ≡ (slice_index (D.seen disk.old) at == 0)) }
    ensures seen { D.seen disk.new ≡ D.seen disk.old }
    ensures reads { OnlyReads D.seen D.may_leave D.moment D.left_since disk.old disk.new }
    ensures cause { HasCause (D.failed disk.old) (D.failed disk.new) result }
{
    let mut byte = [0];
    read(disk, at, &mut byte)?;
    Ok(byte[0] == 0)
}

// Makes the byte at a place 0. Where it is, nothing is written, so that a disk in memory takes no page for it.
fn write_zero<D: Disk>(disk: &mut D, at: usize) -> Result<(), DiskFault>
    requires { at + 1 ≤ length (D.seen disk.old) }
    ensures written { OnOk result (D.seen disk.new ≡ put_at (D.seen disk.old) at (0 ∷ [])) }
    ensures size { length (D.seen disk.new) ≡ length (D.seen disk.old) }
    ensures goes_on { (start : D) (kept : ℕ → Bool) → Misses kept at 1
        → ChangesBut D.seen D.may_leave D.moment D.left_since kept start disk.old
        → ChangesBut D.seen D.may_leave D.moment D.left_since kept start disk.new }
    ensures cause { HasCause (D.failed disk.old) (D.failed disk.new) result }
{
    let is_there = is_zero(disk, at)?;
    if is_there {
        return Ok(());
    }
    write(disk, at, &[0])
}

// From now on no order was taken, no change is under way, and no slot is used. What lies before stays.
fn clear<D: Disk>(disk: &mut D, layout: Layout) -> Result<(), DiskFault>
    requires { disk_size layout.chunk layout.block layout.slots ≤ length (D.seen disk.old) }
    ensures blank { OnOk result (IsBlank layout.chunk layout.block layout.slots (D.seen disk.new)) }
    ensures size { length (D.seen disk.new) ≡ length (D.seen disk.old) }
    ensures goes_on { (start : D) (kept : ℕ → Bool) → ((place : ℕ) → kept place ≡ true → place < 32)
        → ChangesBut D.seen D.may_leave D.moment D.left_since kept start disk.old
        → ChangesBut D.seen D.may_leave D.moment D.left_since kept start disk.new }
    ensures cause { HasCause (D.failed disk.old) (D.failed disk.new) result }
{
    let _size = layout.disk_size();
    write(disk, 32, &[0; 17])?;
    for slot in 0..layout.slots {
        write_zero(disk, layout.slot(slot))?;
    }
    Ok(())
}

fn clear_durably<D: Disk>(disk: &mut D, layout: Layout) -> Result<(), DiskFault>
    requires size { disk_size layout.chunk layout.block layout.slots ≤ length (D.seen disk.old) }
    requires closed { is_head_open (D.seen disk.old) ≡ false }
    requires durable { Only (D.seen disk.old) (D.may_leave disk.old) }
    ensures blank { OnOk result (IsBlank layout.chunk layout.block layout.slots (D.seen disk.new)) }
    ensures closed { is_head_open (D.seen disk.new) ≡ false }
    ensures durable { OnOk result (Only (D.seen disk.new) (D.may_leave disk.new)) }
    ensures any_moment { LeavesOnly D.moment D.left_since disk.old disk.new (λ bytes. is_head_open bytes ≡ false) }
    ensures size { length (D.seen disk.new) ≡ length (D.seen disk.old) }
    ensures cause { HasCause (D.failed disk.old) (D.failed disk.new) result }
{
    clear(disk, layout)?;
    sync(disk)
}

/// Makes a disk of it that has no replicas. The head's gate is closed and all is durable before the call.
///
/// A stop at any moment, and an error, leave a disk whose head is closed, or the formatted one.
pub fn format<D: Disk>(alloc: Global, disk: &mut D, layout: Layout) -> Result<(), DiskFault>
    requires size { disk_size layout.chunk layout.block layout.slots ≤ length (D.seen disk.old) }
    requires closed { is_head_open (D.seen disk.old) ≡ false }
    requires durable { Only (D.seen disk.old) (D.may_leave disk.old) }
    ensures formatted { OnOk result (IsFormatted layout.chunk layout.block layout.slots (D.seen disk.new)) }
    ensures durable { OnOk result (Only (D.seen disk.new) (D.may_leave disk.new)) }
    ensures read { IsFormatting layout.chunk layout.block layout.slots (D.seen disk.new) }
    ensures any_moment { LeavesOnly D.moment D.left_since disk.old disk.new (IsFormatting layout.chunk layout.block layout.slots) }
    ensures cause { HasCause (D.failed disk.old) (D.failed disk.new) result }
{
    let _size = layout.disk_size();
    let head = write_head(alloc, layout.chunk, layout.block, layout.slots)?;
    clear_durably(disk, layout)?;
    commit(disk, 0, &head, 31)
}

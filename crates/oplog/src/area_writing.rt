//! An area, written behind its gate.

ghost use Rattle.std.specs.Prelude.{◌≡◌, ◌<◌, ◌≤◌, ◌+◌, ◌++◌, [], ◌∷◌, false, true, length, nat_le, is_some, IfOk, IfSome, OnOk, IsErrOf};
ghost use Rattle.std.specs.List.{AllByRecursion};
ghost use Rattle.disk.specs.Device.{ChangesOnly, Only};
ghost use Rattle.disk_redo.specs.GateMoments.{LeavesOnly};
ghost use Rattle.log_codec.specs.Fields.{index, number, IsIndex};
ghost use Rattle.log_codec.specs.Payloads.{IsWritable};
ghost use Rattle.oplog.specs.Areas.{AreaSays};
ghost use Rattle.oplog.specs.Entries.{entries, IsEntry};
ghost use Rattle.oplog.specs.Layout.{area_at, area_size, checkpoint_fits};
ghost use Rattle.oplog.specs.Order.{is_checkpoint};
ghost use Rattle.oplog.specs.Disks.{area_of};
ghost use Rattle.oplog.specs.Logs.{MayFail};
ghost use Rattle.oplog.specs.declared.fault.LogFault.TheVariants as faults;
ghost use Rattle.oplog.specs.Writing.{area_with, is_area_open, IsStillClosed, IsWriting};

use crate::entry_writing::put_entry;
use crate::fault::LogFault;
use crate::layout::area_at;
use disk::Disk;
use disk_redo::gate::commit;
use gfs_types::no_memory::NoMemory;
use log_codec::encoded_len;
use log_records::record::Record;
use std::alloc::Global;

/// What is left of so many bytes behind a checkpoint of these items; None where they have no room.
#[tactic(auto, using(crate::proofs::AreaEntries::entries_length, crate::proofs::AreaEntries::entries_none))]
pub fn room_left(items: &[Record], room: usize) -> Option<usize>
    requires { AllByRecursion IsWritable items.now }
    ensures fits { is_some result ≡ nat_le (length (entries items.now)) room }
    ensures left { IfSome result (λ left. length (entries items.now) + left ≡ room) }
{
    let mut rest = items;
    let mut left = room;
    while let Some((first, others)) = rest.split_first() {
        if left < 4 || left - 4 < encoded_len(first) {
            return None;
        }
        left -= 4 + encoded_len(first);
        rest = others;
    }
    Some(left)
}

#[tactic(auto, using(crate::proofs::AreaEntries::entries_length, crate::proofs::AreaEntries::entries_more, crate::proofs::AreaEntries::entries_none))]
// The items' lengths and payloads, at the end of the bytes.
fn put_entries(out: &mut Vec<u8>, items: &[Record]) -> Result<(), NoMemory>
    requires writable { AllByRecursion IsWritable items.now }
    requires short { IsIndex (length (entries items.now)) }
    ensures bytes { OnOk result (out.new.items ≡ out.old.items ++ entries items.now) }
    ensures stand { OnOk result (AllByRecursion IsEntry items.now) }
{
    let mut rest = items;
    while let Some((first, others)) = rest.split_first() {
        put_entry(out, first)?;
        rest = others;
    }
    Ok(())
}

// An area's bytes behind its gate: its number, its checkpoint behind its length, and a closed gate.
#[tactic(auto, unfolding(log_codec::specs::Fields::number, log_codec::specs::Fields::index))]
fn bytes_behind_gate(alloc: Global, area_number: u64, items: &[Record]) -> Result<Vec<u8>, NoMemory>
    requires writable { AllByRecursion IsWritable items.now }
    requires short { IsIndex (length (entries items.now)) }
    ensures bytes { IfOk result (λ v. v.items ≡ number area_number ++ (index (length (entries items.now)) ++ (entries items.now ++ 0 ∷ []))) }
    ensures stand { OnOk result (AllByRecursion IsEntry items.now) }
{
    let mut checkpoint = Vec::new(alloc);
    put_entries(&mut checkpoint, items)?;
    let size = checkpoint.len() as u32;
    let mut bytes = Vec::new(alloc);
    bytes.extend_from_slice(&area_number.to_le_bytes())?;
    bytes.extend_from_slice(&size.to_le_bytes())?;
    bytes.extend_from_slice(&checkpoint)?;
    bytes.push(0)?;
    Ok(bytes)
}

/// Writes a closed area: its number, its checkpoint and a closed gate after it; and opens it. At `Ok` it is on the disk for good.
///
/// `NoMemory`: the area is still closed. `Device`: the disk failed in this call.
pub fn write_area<D: Disk>(
    disk: &mut D,
    alloc: Global,
    which: usize,
    number: u64,
    items: &[Record],
) -> Result<(), LogFault>
    requires large { 4096 ≤ length (D.seen disk.old) }
    requires which { which < 2 }
    requires closed { is_area_open (length (D.seen disk.old)) which (D.seen disk.old) ≡ false }
    requires durable { Only (D.seen disk.old) (D.may_leave disk.old) }
    requires writable { AllByRecursion IsWritable items.now }
    requires order { is_checkpoint items.now ≡ true }
    requires fits { checkpoint_fits (area_size (length (D.seen disk.old))) items.now ≡ true }
    requires short { IsIndex (length (entries items.now)) }
    ensures says { OnOk result (AreaSays (area_with number items.now) (area_of (length (D.seen disk.old)) which (D.seen disk.new))) }
    ensures elsewhere { OnOk result (ChangesOnly (area_at (length (D.seen disk.old)) which) (area_size (length (D.seen disk.old))) (D.seen disk.old) (D.seen disk.new)) }
    ensures durable { OnOk result (Only (D.seen disk.new) (D.may_leave disk.new)) }
    ensures refused { IsErrOf result faults.NoMemory → IsStillClosed (length (D.seen disk.old)) which (D.seen disk.old) (D.seen disk.new) × Only (D.seen disk.new) (D.may_leave disk.new) }
    ensures not_full { IsErrOf result faults.Full → ⊥ }
    ensures undamaged { IsErrOf result faults.Damaged → ⊥ }
    ensures read { IsWriting (length (D.seen disk.old)) which (area_with number items.now) (D.seen disk.old) (D.seen disk.new) }
    // A stop at any moment of the call leaves the area closed, or as it is to be, and all else as it was.
    ensures any_moment { LeavesOnly D.moment D.left_since disk.old disk.new (IsWriting (length (D.seen disk.old)) which (area_with number items.now) (D.seen disk.old)) }
    ensures cause { MayFail (D.failed disk.old) (D.failed disk.new) result }
{
    let place = area_at(disk.size(), which);
    let bytes = bytes_behind_gate(alloc, number, items)?;
    commit(disk, place + 1, &bytes, place)?;
    Ok(())
}

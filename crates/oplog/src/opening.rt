//! Opening a disk.

ghost use Rattle.std.specs.Prelude.{◌≡◌, ◌≤◌, ◌↔◌, [], ◌∷◌, ◌++◌, ℕ, List, true, false, length, take, IfOk, IsErrOf, IsTrue, OnOk};
ghost use Rattle.disk.specs.Device.{Only};
ghost use Rattle.disk_redo.specs.GateMoments.{LeavesOnly};
ghost use Rattle.oplog.specs.Disks.{head, is_formatted};
ghost use Rattle.oplog.specs.Formats.{is_format_2, upgraded};
ghost use Rattle.log_records.specs.declared.record.Record.{Record};
ghost use Rattle.oplog.specs.Logs.{MayFail};
ghost use Rattle.oplog.specs.declared.fault.LogFault.TheVariants as faults;
ghost use Rattle.oplog.specs.NewLogs.{IsLogOf};
ghost use Rattle.oplog.specs.Opening.{IsFound, IsOpening};
ghost use Rattle.oplog.specs.Reopening.{IsReopened};

use crate::counted::CountedRecords;
use crate::fault::LogFault;
use crate::found::FoundArea;
use crate::new_log::format;
use crate::reading::{read_head, read_log};
use crate::upgrading::upgrade;
use disk::Disk;
use std::alloc::Global;

// The head before its second gate: `GFSL`, and 1.
const HEAD_FRONT: [u8; 5] = [71, 70, 83, 76, 1];

// Behind that gate: zeros, and the open gate.
const HEAD_REST: [u8; 10] = [0, 0, 0, 0, 0, 0, 0, 0, 0, 1];

// Whether the head's gate is open.
fn is_formatted(head: &[u8]) -> bool
    requires { 16 ≤ length head.now }
    ensures { result ≡ is_formatted head.now }
{
    head[15] == 1
}

// Whether the head's second gate is open.
fn is_format_2(head: &[u8]) -> bool
    requires { 16 ≤ length head.now }
    ensures { result ≡ is_format_2 head.now }
{
    head[5] == 1
}

// Whether these are the bytes of an open head. The second gate may be any byte: a stop while it was written leaves such.
fn is_head(bytes: &[u8]) -> bool
    requires { length bytes.now ≡ 16 }
    ensures { IsTrue result ↔ upgraded bytes.now ≡ head ++ 1 ∷ [] }
{
    let (front, gate_and_rest) = bytes.split_at(5);
    let (_, rest) = gate_and_rest.split_at(1);
    front == HEAD_FRONT.as_slice() && rest == HEAD_REST.as_slice()
}

// What a disk with an open head says; `front` is its first 16 bytes. A log of format 1 gets format 2 once it was read.
fn read_headed<D: Disk>(disk: &mut D, alloc: Global, front: &[u8]) -> Result<FoundArea, LogFault>
    requires large { 4096 ≤ length (D.seen disk.old) }
    requires front { front.now ≡ take 16 (D.seen disk.old) }
    requires headed { is_formatted (D.seen disk.old) ≡ true }
    requires durable { Only (D.seen disk.old) (D.may_leave disk.old) }
    ensures found { IfOk result (λ x. IsFound x (D.seen disk.new)) }
    ensures size { OnOk result (length (D.seen disk.new) ≡ length (D.seen disk.old)) }
    ensures same { IfOk result (λ x. IsLogOf x.items x.records (D.seen disk.old)) }
    ensures durable { OnOk result (Only (D.seen disk.new) (D.may_leave disk.new)) }
    ensures undamaged { (items records : List Record) → IsLogOf items records (D.seen disk.old) → IsErrOf result faults.Damaged → ⊥ }
    ensures not_full { IsErrOf result faults.Full → ⊥ }
    ensures read { IsReopened (D.seen disk.old) (D.seen disk.new) }
    ensures any_moment { LeavesOnly D.moment D.left_since disk.old disk.new (IsOpening (D.seen disk.old) (D.may_leave disk.old)) }
    ensures cause { MayFail (D.failed disk.old) (D.failed disk.new) result }
{
    if !is_head(front) {
        return Err(LogFault::Damaged);
    }
    if is_format_2(front) {
        read_log(disk, alloc)
    } else {
        upgrade(disk, alloc)
    }
}

// Formats a disk with a closed head.
fn format_new<D: Disk>(disk: &mut D, alloc: Global) -> Result<FoundArea, LogFault>
    requires large { 4096 ≤ length (D.seen disk.old) }
    requires new { is_formatted (D.seen disk.old) ≡ false }
    requires durable { Only (D.seen disk.old) (D.may_leave disk.old) }
    ensures found { IfOk result (λ x. IsFound x (D.seen disk.new)) }
    ensures size { OnOk result (length (D.seen disk.new) ≡ length (D.seen disk.old)) }
    ensures same { IfOk result (λ x. IsLogOf x.items x.records (D.seen disk.old)) }
    ensures durable { OnOk result (Only (D.seen disk.new) (D.may_leave disk.new)) }
    ensures undamaged { IsErrOf result faults.Damaged → ⊥ }
    ensures not_full { IsErrOf result faults.Full → ⊥ }
    ensures read { IsLogOf [] [] (D.seen disk.new) }
    ensures any_moment { LeavesOnly D.moment D.left_since disk.old disk.new (IsLogOf [] []) }
    ensures cause { MayFail (D.failed disk.old) (D.failed disk.new) result }
{
    format(disk, alloc)?;
    Ok(FoundArea {
        which: 0,
        number: 1,
        end: 13,
        items: CountedRecords::new(),
        records: CountedRecords::new(),
        walk: None,
    })
}

/// What stands on the disk. An empty log is formatted where none does.
pub fn open_disk<D: Disk>(disk: &mut D, alloc: Global) -> Result<FoundArea, LogFault>
    requires { 4096 ≤ length (D.seen disk.old) }
    ensures found { IfOk result (λ x. IsFound x (D.seen disk.new)) }
    ensures size { OnOk result (length (D.seen disk.new) ≡ length (D.seen disk.old)) }
    ensures same { IfOk result (λ x. IsLogOf x.items x.records (D.seen disk.old)) }
    ensures durable { OnOk result (Only (D.seen disk.new) (D.may_leave disk.new)) }
    ensures undamaged { (items records : List Record) → IsLogOf items records (D.seen disk.old) → IsErrOf result faults.Damaged → ⊥ }
    ensures not_full { IsErrOf result faults.Full → ⊥ }
    ensures read { IsReopened (D.seen disk.old) (D.seen disk.new) }
    ensures any_moment { LeavesOnly D.moment D.left_since disk.old disk.new (IsOpening (D.seen disk.old) (D.may_leave disk.old)) }
    ensures cause { MayFail (D.failed disk.old) (D.failed disk.new) result }
{
    let front = read_head(disk, alloc)?;
    if is_formatted(&front) {
        read_headed(disk, alloc, &front)
    } else {
        format_new(disk, alloc)
    }
}

//! A log of format 1 gets format 2.

ghost use Rattle.std.specs.Prelude.{◌≡◌, ◌⊎◌, ◌≤◌, [], ◌∷◌, ◌++◌, List, false, length, take, IfOk, IsErrOf, OnOk};
ghost use Rattle.std.specs.List.{list_any};
ghost use Rattle.disk.specs.Device.{ChangesOnly, HasCause, Only};
ghost use Rattle.disk_redo.specs.GateMoments.{LeavesOnly};
ghost use Rattle.log_codec.specs.Payloads.{has_shape};
ghost use Rattle.log_records.specs.declared.record.Record.{Record};
ghost use Rattle.oplog.specs.Disks.{head};
ghost use Rattle.oplog.specs.Formats.{format_gate, is_format_2, upgraded, HasLogOfFormat1, IsUpgrading};
ghost use Rattle.oplog.specs.Logs.{MayFail};
ghost use Rattle.oplog.specs.declared.fault.LogFault.TheVariants as faults;
ghost use Rattle.oplog.specs.Opening.{IsFound, IsOpening};

use crate::fault::LogFault;
use crate::found::FoundArea;
use crate::reading::read_log;
use disk::{Disk, DiskFault};
use std::alloc::Global;

// The second gate of the head.
const FORMAT_GATE: usize = 5;

// Opens the second gate. A stop at any moment leaves any byte there, and all else as it was.
fn open_format_gate<D: Disk>(disk: &mut D) -> Result<(), DiskFault>
    requires large { 4096 ≤ length (D.seen disk.old) }
    requires durable { Only (D.seen disk.old) (D.may_leave disk.old) }
    ensures upgraded { OnOk result (D.seen disk.new ≡ upgraded (D.seen disk.old)) }
    ensures durable { OnOk result (Only (D.seen disk.new) (D.may_leave disk.new)) }
    ensures read { ChangesOnly format_gate 1 (D.seen disk.old) (D.seen disk.new) }
    ensures any_moment { LeavesOnly D.moment D.left_since disk.old disk.new (ChangesOnly format_gate 1 (D.seen disk.old)) }
    ensures cause { HasCause (D.failed disk.old) (D.failed disk.new) result }
{
    disk.write_at(FORMAT_GATE, &[1])?;
    disk.sync()
}

// Whether one of the items and records tells a file's shape.
#[tactic(auto, using(crate::proofs::SecondGate::any_of_both))]
fn has_shapes(found: &FoundArea) -> bool
    ensures { result ≡ list_any has_shape (found.now.items ++ found.now.records) }
{
    found.items.has_shape() || found.records.has_shape()
}

/// Reads a log of format 1, all of it, and then opens its second gate: it has format 2, for good.
///
/// `Damaged`: the bytes are no log of format 1, or a record or an item of it tells a shape. Then nothing was written.
pub fn upgrade<D: Disk>(disk: &mut D, alloc: Global) -> Result<FoundArea, LogFault>
    requires large { 4096 ≤ length (D.seen disk.old) }
    requires format { is_format_2 (D.seen disk.old) ≡ false }
    requires headed { take 16 (upgraded (D.seen disk.old)) ≡ head ++ 1 ∷ [] }
    requires durable { Only (D.seen disk.old) (D.may_leave disk.old) }
    ensures found { IfOk result (λ x. IsFound x (D.seen disk.new)) }
    ensures size { OnOk result (length (D.seen disk.new) ≡ length (D.seen disk.old)) }
    ensures same { IfOk result (λ x. HasLogOfFormat1 x.items x.records (D.seen disk.old)) }
    ensures durable { OnOk result (Only (D.seen disk.new) (D.may_leave disk.new)) }
    ensures undamaged { (items records : List Record) → HasLogOfFormat1 items records (D.seen disk.old) → IsErrOf result faults.Damaged → ⊥ }
    ensures not_full { IsErrOf result faults.Full → ⊥ }
    // What is read, and what a stop at any moment leaves, is what was there, or its items and records in either format.
    ensures read { (D.seen disk.new ≡ D.seen disk.old) ⊎ IsUpgrading (D.seen disk.old) (D.seen disk.new) }
    ensures any_moment { LeavesOnly D.moment D.left_since disk.old disk.new (IsOpening (D.seen disk.old) (D.may_leave disk.old)) }
    ensures cause { MayFail (D.failed disk.old) (D.failed disk.new) result }
{
    let found = read_log(disk, alloc)?;
    if has_shapes(&found) {
        return Err(LogFault::Damaged);
    }
    open_format_gate(disk)?;
    Ok(found)
}

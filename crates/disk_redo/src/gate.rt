//! Writing behind a gate.

ghost use Rattle.std.specs.Prelude.{◌≡◌, ◌⊎◌, ◌<◌, ◌≤◌, ◌+◌, [], ◌∷◌, length, OnOk, IsErrOf};
ghost use Rattle.disk.specs.declared.device.DiskFault.TheVariants.{Device, NoMemory};
ghost use Rattle.disk.specs.Bytes.{put_at};
ghost use Rattle.disk.specs.Device.{ChangesOnly, HasCause, Only};
ghost use Rattle.disk_redo.specs.Gates.{committed, IsCommitting, IsUncommitted};
ghost use Rattle.disk_redo.specs.GateMoments.{LeavesOnly};

use disk::{Disk, DiskFault};

/// Writes and syncs. `Device`: the range may hold anything. `NoMemory`: nothing changed.
fn write_durably<D: Disk>(disk: &mut D, at: usize, bytes: &[u8]) -> Result<(), DiskFault>
    requires durable { Only (D.seen disk.old) (D.may_leave disk.old) }
    requires room { at + length bytes.now ≤ length (D.seen disk.old) }
    ensures written { OnOk result (D.seen disk.new ≡ put_at (D.seen disk.old) at bytes.now) }
    ensures durable { OnOk result (Only (D.seen disk.new) (D.may_leave disk.new)) }
    ensures refused { IsErrOf result NoMemory → (D.seen disk.new ≡ D.seen disk.old) × Only (D.seen disk.new) (D.may_leave disk.new) }
    ensures read { ChangesOnly at (length bytes.now) (D.seen disk.old) (D.seen disk.new) }
    ensures any_moment { LeavesOnly D.moment D.left_since disk.old disk.new (ChangesOnly at (length bytes.now) (D.seen disk.old)) }
    ensures cause { HasCause (D.failed disk.old) (D.failed disk.new) result }
{
    disk.write_at(at, bytes)?;
    disk.sync()
}

/// Closes a gate, for good once it is Ok.
///
/// `NoMemory`: nothing changed. `Device`: the gate may be any byte.
pub fn close<D: Disk>(disk: &mut D, gate: usize) -> Result<(), DiskFault>
    requires durable { Only (D.seen disk.old) (D.may_leave disk.old) }
    requires room { gate < length (D.seen disk.old) }
    ensures closed { OnOk result (D.seen disk.new ≡ put_at (D.seen disk.old) gate (0 ∷ [])) }
    ensures durable { OnOk result (Only (D.seen disk.new) (D.may_leave disk.new)) }
    ensures refused { IsErrOf result NoMemory → (D.seen disk.new ≡ D.seen disk.old) × Only (D.seen disk.new) (D.may_leave disk.new) }
    // What is read, and what a stop at any moment of the call leaves, differs in the gate alone.
    ensures read { ChangesOnly gate 1 (D.seen disk.old) (D.seen disk.new) }
    ensures any_moment { LeavesOnly D.moment D.left_since disk.old disk.new (ChangesOnly gate 1 (D.seen disk.old)) }
    ensures cause { HasCause (D.failed disk.old) (D.failed disk.new) result }
{
    write_durably(disk, gate, &[0])
}

/// Writes bytes, syncs, opens their gate, and syncs.
///
/// `NoMemory`: the bytes may be written, and the gate is as it was. `Device`: what a stop might have left stands.
pub fn commit<D: Disk>(disk: &mut D, at: usize, bytes: &[u8], gate: usize) -> Result<(), DiskFault>
    requires durable { Only (D.seen disk.old) (D.may_leave disk.old) }
    requires room { at + length bytes.now ≤ length (D.seen disk.old) }
    requires gate { gate < length (D.seen disk.old) }
    ensures committed { OnOk result (D.seen disk.new ≡ committed (D.seen disk.old) at bytes.now gate) }
    ensures durable { OnOk result (Only (D.seen disk.new) (D.may_leave disk.new)) }
    ensures refused { IsErrOf result NoMemory → IsUncommitted (D.seen disk.old) at bytes.now (D.seen disk.new) × Only (D.seen disk.new) (D.may_leave disk.new) }
    // What is read, and what a stop at any moment of the call leaves, has the gate as it was, or the bytes whole.
    ensures read { IsCommitting (D.seen disk.old) at bytes.now gate (D.seen disk.new) }
    ensures any_moment { LeavesOnly D.moment D.left_since disk.old disk.new (IsCommitting (D.seen disk.old) at bytes.now gate) }
    ensures cause { HasCause (D.failed disk.old) (D.failed disk.new) result }
{
    write_durably(disk, at, bytes)?;
    write_durably(disk, gate, &[1])
}

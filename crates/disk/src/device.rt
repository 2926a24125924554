//! What every disk promises.

ghost use Rattle.std.specs.Prelude.{◌≡◌, ◌≤◌, ◌+◌, List, ℕ, Some, length, take, drop, OnOk, IsErrOf};
ghost use Rattle.disk.specs.declared.device.DiskFault.TheVariants.{NoMemory};
ghost use Rattle.disk.specs.Faults.{fault_text};
ghost use Rattle.disk.specs.Device.{ChangesOnly, Elapses, Follows, Forgets, HasCause, Holds, NoMore, Only};

use std::alloc::{AllocError, AllocFailed};
use std::error::Error;
use std::fmt;

/// Why a disk's call failed.
#[derive(Clone, Copy, Debug, PartialEq, Eq)]
pub enum DiskFault {
    /// The disk failed.
    Device,
    /// Memory was refused, and no byte changed.
    NoMemory,
}

impl fmt::Display for DiskFault {
    ghost output = { λ fault. Some (fault_text fault) };

    fn fmt<W: fmt::Write>(&self, f: &mut fmt::Formatter<W>) -> fmt::Result {
        match self {
            DiskFault::Device => write!(f, "disk failed"),
            DiskFault::NoMemory => write!(f, "no memory"),
        }
    }
}

impl Error for DiskFault {}

impl From<AllocError> for DiskFault {
    ghost from_gives = { λ _ e. e ≡ NoMemory };

    fn from(_: AllocError) -> Self {
        DiskFault::NoMemory
    }
}

impl<T: Drop> From<AllocFailed<T>> for DiskFault {
    ghost from_gives = { λ _ e. e ≡ NoMemory };

    fn from(_: AllocFailed<T>) -> Self {
        DiskFault::NoMemory
    }
}

/// A disk of fixed size, which may stop at any moment. A range that was written since the last sync may hold any bytes after a stop; other bytes stay.
pub trait Disk {
    /// The bytes that a read gives.
    ghost seen: { Self → List ℕ };

    /// What a stop at this moment may leave.
    ghost may_leave: { Self → List ℕ → Type 0 };

    /// The moment, as a number that doesn't fall.
    ghost moment: { Self → ℕ };

    /// What a stop at some moment from that one on might have left.
    ghost left_since: { Self → ℕ → List ℕ → Type 0 };

    /// How often the disk has failed.
    ghost failed: { Self → ℕ };

    /// How many bytes it has.
    fn size(&self) -> usize
        ensures { result ≡ length (seen self.now) };

    /// How often it has failed. `Device` is answered only by a call in which this number rose.
    fn failures(&self) -> u64
        ensures { result ≡ failed self.now };

    /// Fills `out` with the bytes from `at` on. A range that ends beyond the disk breaks the caller's condition. After an `Err`, which is `Device`, `out` may hold anything.
    fn read(&mut self, at: usize, out: &mut [u8]) -> Result<(), DiskFault>
        requires { at + length out.old ≤ length (seen self.old) }
        ensures bytes { OnOk result (out.new ≡ take (length out.old) (drop at (seen self.old))) }
        ensures seen { seen self.new ≡ seen self.old }
        ensures crash { NoMore (may_leave self.old) (may_leave self.new) }
        ensures time { Elapses (moment self.old) (moment self.new) (left_since self.old) (left_since self.new) (may_leave self.new) }
        ensures cause { HasCause (failed self.old) (failed self.new) result }
        ensures no_memory_needed { IsErrOf result NoMemory → ⊥ };

    /// Writes over what is there. Until a sync, a stop may leave any bytes in the range.
    /// At `NoMemory` no byte has changed. At `Device` the range may hold anything.
    fn write_at(&mut self, at: usize, bytes: &[u8]) -> Result<(), DiskFault>
        requires { at + length bytes.now ≤ length (seen self.old) }
        ensures written { OnOk result (Holds (seen self.old) at bytes.now (seen self.new)) }
        ensures elsewhere { ChangesOnly at (length bytes.now) (seen self.old) (seen self.new) }
        ensures refused { IsErrOf result NoMemory → (seen self.new ≡ seen self.old) × NoMore (may_leave self.old) (may_leave self.new) }
        ensures crash { Follows (ChangesOnly at (length bytes.now)) (may_leave self.old) (may_leave self.new) }
        ensures time { Elapses (moment self.old) (moment self.new) (left_since self.old) (left_since self.new) (may_leave self.new) }
        ensures cause { HasCause (failed self.old) (failed self.new) result };

    /// After it, a stop leaves what a read gives. After an `Err`, which is `Device`, a stop may leave what it could before.
    fn sync(&mut self) -> Result<(), DiskFault>
        ensures durable { OnOk result (Only (seen self.old) (may_leave self.new)) }
        ensures seen { seen self.new ≡ seen self.old }
        ensures crash { NoMore (may_leave self.old) (may_leave self.new) }
        ensures time { Elapses (moment self.old) (moment self.new) (left_since self.old) (left_since self.new) (may_leave self.new) }
        ensures cause { HasCause (failed self.old) (failed self.new) result }
        ensures no_memory_needed { IsErrOf result NoMemory → ⊥ };

    /// Sets the moment since which the disk tells what a stop might have left: this one. A store sets it before it writes. Changes no byte, and gives back the memory that was kept for what came before.
    fn forget_past(&mut self)
        ensures seen { seen self.new ≡ seen self.old }
        ensures crash { NoMore (may_leave self.old) (may_leave self.new) }
        ensures time { Forgets (moment self.old) (moment self.new) (left_since self.old) (left_since self.new) (may_leave self.new) }
        ensures failed { failed self.new ≡ failed self.old };

    /// Lets that many calls of `read`, `write_at` and `sync` pass and fails each later one, where the disk can be told to fail. Changes no byte.
    fn arm(&mut self, calls: u64)
        ensures seen { seen self.new ≡ seen self.old }
        ensures crash { NoMore (may_leave self.old) (may_leave self.new) }
        ensures time { Elapses (moment self.old) (moment self.new) (left_since self.old) (left_since self.new) (may_leave self.new) }
        ensures failed { failed self.new ≡ failed self.old };

    /// A stop at this moment may leave what a read gives. Does nothing.
    fn may_stop_as_read(&self)
        ensures { may_leave self.now (seen self.now) };

    /// This moment is one of those since an earlier one.
    ghost counts_now: { (disk : Self) (t : ℕ) (c : List ℕ) → t ≤ moment disk → may_leave disk c → left_since disk t c };

    /// Since this moment there is no other.
    ghost only_now: { (disk : Self) (c : List ℕ) → left_since disk (moment disk) c → may_leave disk c };
}

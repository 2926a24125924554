//! Why a call of a log failed.

ghost use Rattle.std.specs.Prelude.{◌≡◌, Some};
ghost use Rattle.operation_log.specs.Faults.{fault_text};
ghost use Rattle.operation_log.specs.declared.fault.OperationLogFault.TheVariants.{NoMemory as OutOfMemory};

use gfs_types::no_memory::NoMemory;
use std::alloc::{AllocError, AllocFailed};
use std::error::Error;
use std::fmt;

/// Why a call of a log failed.
#[derive(Clone, Copy, Debug, PartialEq, Eq)]
pub enum OperationLogFault {
    /// There is no room for the record or the item. Nothing has changed.
    Full,
    /// The log's format has no bytes for it: a text is no path, or a list or an index is too long. Nothing has changed.
    Unwritable,
    /// Memory was refused.
    NoMemory,
    /// The disk failed.
    Device,
    /// What stands on the disk, or would stand there, is no log; or a new log's disk has one.
    Damaged,
}

impl fmt::Display for OperationLogFault {
    ghost output = { λ fault. Some (fault_text fault) };

    fn fmt<W: fmt::Write>(&self, f: &mut fmt::Formatter<W>) -> fmt::Result {
        match self {
            OperationLogFault::Full => write!(f, "log is full"),
            OperationLogFault::Unwritable => write!(f, "no log record"),
            OperationLogFault::NoMemory => write!(f, "no memory"),
            OperationLogFault::Device => write!(f, "disk failed"),
            OperationLogFault::Damaged => write!(f, "log is damaged"),
        }
    }
}

impl Error for OperationLogFault {}

impl From<NoMemory> for OperationLogFault {
    ghost from_gives = { λ _ e. e ≡ OutOfMemory };

    fn from(_: NoMemory) -> OperationLogFault {
        OperationLogFault::NoMemory
    }
}

impl From<AllocError> for OperationLogFault {
    ghost from_gives = { λ _ e. e ≡ OutOfMemory };

    fn from(_: AllocError) -> OperationLogFault {
        OperationLogFault::NoMemory
    }
}

impl<T: Drop> From<AllocFailed<T>> for OperationLogFault {
    ghost from_gives = { λ _ e. e ≡ OutOfMemory };

    fn from(_: AllocFailed<T>) -> OperationLogFault {
        OperationLogFault::NoMemory
    }
}

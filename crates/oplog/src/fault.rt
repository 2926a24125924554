//! Why a call of the log failed.

ghost use Rattle.std.specs.Prelude.{◌≡◌};
ghost use Rattle.oplog.specs.declared.fault.LogFault.TheVariants.{NoMemory as OutOfMemory};
ghost use Rattle.oplog.specs.Faults.{fault_of, fault_of_bytes, leaves_open};

use disk::DiskFault;
use gfs_types::no_memory::NoMemory;
use log_codec::DecodeFault;
use std::alloc::AllocFailed;
use thiserror::Error;

/// Why a call of the log failed.
#[derive(Clone, Copy, Debug, PartialEq, Eq, Error)]
pub enum LogFault {
    /// There is no room, or no area has a number left, and nothing changed.
    #[error("log full")]
    Full,
    /// What stands on the disk is no log.
    #[error("log damaged")]
    Damaged,
    /// The disk failed. After a change the log is open no more: open its disk again.
    #[error("disk failed")]
    Device,
    /// Memory was refused. After a change the log says what it said.
    #[error("no memory")]
    NoMemory,
}

impl LogFault {
    /// Whether a log is open still after a change that failed so.
    pub fn leaves_open(self) -> bool
        ensures { result ≡ leaves_open self }
    {
        match self {
            LogFault::Device => false,
            LogFault::Full | LogFault::Damaged | LogFault::NoMemory => true,
        }
    }
}

impl From<DiskFault> for LogFault {
    ghost from_gives = { λ d e. e ≡ fault_of d };

    fn from(fault: DiskFault) -> LogFault {
        match fault {
            DiskFault::Device => LogFault::Device,
            DiskFault::NoMemory => LogFault::NoMemory,
        }
    }
}

impl From<DecodeFault> for LogFault {
    ghost from_gives = { λ d e. e ≡ fault_of_bytes d };

    fn from(fault: DecodeFault) -> LogFault {
        match fault {
            DecodeFault::Damaged => LogFault::Damaged,
            DecodeFault::NoMemory => LogFault::NoMemory,
        }
    }
}

impl From<NoMemory> for LogFault {
    ghost from_gives = { λ _ e. e ≡ OutOfMemory };

    fn from(_error: NoMemory) -> LogFault {
        LogFault::NoMemory
    }
}

impl<T: Drop> From<AllocFailed<T>> for LogFault {
    ghost from_gives = { λ _ e. e ≡ OutOfMemory };

    fn from(_failed: AllocFailed<T>) -> LogFault {
        LogFault::NoMemory
    }
}

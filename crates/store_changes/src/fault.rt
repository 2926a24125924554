//! Why a call of the store failed.

ghost use Rattle.std.specs.Prelude.{◌≡◌};
ghost use Rattle.store_changes.specs.Faults.{fault_of, is_refusal};
ghost use Rattle.store_changes.specs.declared.fault.StoreFault.TheVariants.{NoMemory as OutOfMemory};

use disk::DiskFault;
use std::alloc::AllocError;
use thiserror::Error;

/// Why a call of the store failed.
#[derive(Clone, Copy, Debug, PartialEq, Eq, Error)]
pub enum StoreFault {
    /// There is no such replica, and nothing changed.
    #[error("no such replica")]
    NoChunk,
    /// The replica has another version, or there is one already, and nothing changed.
    #[error("another version")]
    Version,
    /// The replica has applied this serial or a later one, and nothing changed.
    #[error("old serial")]
    OldSerial,
    /// A block doesn't match its digest, and nothing changed.
    #[error("corrupt block")]
    Corrupt,
    /// Each slot is used, and nothing changed.
    #[error("no free slot")]
    NoRoom,
    /// The disk failed. After a change the disk is to be opened again.
    #[error("disk failed")]
    Device,
    /// Memory was refused. After a change the disk is to be opened again.
    #[error("no memory")]
    NoMemory,
}

impl StoreFault {
    /// Whether it refuses the call: nothing changed, and the store is open still.
    pub fn is_refusal(self) -> bool
        ensures { result ≡ is_refusal self }
    {
        match self {
            StoreFault::Device | StoreFault::NoMemory => false,
            StoreFault::NoChunk
            | StoreFault::Version
            | StoreFault::OldSerial
            | StoreFault::Corrupt
            | StoreFault::NoRoom => true,
        }
    }
}

impl From<DiskFault> for StoreFault {
    ghost from_gives = { λ d e. e ≡ fault_of d };

    fn from(fault: DiskFault) -> StoreFault {
        match fault {
            DiskFault::Device => StoreFault::Device,
            DiskFault::NoMemory => StoreFault::NoMemory,
        }
    }
}

impl From<AllocError> for StoreFault {
    ghost from_gives = { λ _ e. e ≡ OutOfMemory };

    fn from(_error: AllocError) -> StoreFault {
        StoreFault::NoMemory
    }
}

//! Why a disk couldn't be opened.

ghost use Rattle.std.specs.Prelude.{◌≡◌};
ghost use Rattle.chunk_store.specs.Faults.{fault_of};
ghost use Rattle.chunk_store.specs.declared.fault.OpenFault.TheVariants.{NoMemory as OutOfMemory};

use disk::DiskFault;
use std::alloc::AllocError;
use thiserror::Error;

/// Why a disk couldn't be opened.
#[derive(Clone, Copy, Debug, PartialEq, Eq, Error)]
pub enum OpenFault {
    /// The disk is another layout's: it is too small, or its head says so.
    #[error("another layout's disk")]
    Damaged,
    /// The disk failed.
    #[error("disk failed")]
    Device,
    /// Memory was refused.
    #[error("no memory")]
    NoMemory,
}

impl From<DiskFault> for OpenFault {
    ghost from_gives = { λ d e. e ≡ fault_of d };

    fn from(fault: DiskFault) -> OpenFault {
        match fault {
            DiskFault::Device => OpenFault::Device,
            DiskFault::NoMemory => OpenFault::NoMemory,
        }
    }
}

impl From<AllocError> for OpenFault {
    ghost from_gives = { λ _ e. e ≡ OutOfMemory };

    fn from(_error: AllocError) -> OpenFault {
        OpenFault::NoMemory
    }
}

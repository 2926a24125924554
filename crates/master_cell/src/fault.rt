//! Why a master can't be made.

ghost use Rattle.std.specs.Prelude.{◌≡◌, Some};
ghost use Rattle.master_cell.specs.declared.fault.MasterFault.TheVariants.{NoMemory as OutOfMemory};
ghost use Rattle.master_cell.specs.Faults.{fault_text};

use gfs_types::no_memory::NoMemory;
use operation_log::fault::OperationLogFault;
use std::alloc::AllocError;
use std::error::Error;
use std::fmt;

/// Why a master can't be made.
#[derive(Clone, Copy, Debug, PartialEq, Eq)]
pub enum MasterFault {
    /// Memory was refused.
    NoMemory,
    /// Its log didn't take the first epoch.
    Log(OperationLogFault),
}

impl fmt::Display for MasterFault {
    ghost output = { λ fault. Some (fault_text fault) };

    fn fmt<W: fmt::Write>(&self, f: &mut fmt::Formatter<W>) -> fmt::Result {
        match self {
            MasterFault::NoMemory => write!(f, "no memory"),
            MasterFault::Log(fault) => write!(f, "{fault}"),
        }
    }
}

impl Error for MasterFault {}

impl From<NoMemory> for MasterFault {
    ghost from_gives = { λ _ e. e ≡ OutOfMemory };

    fn from(_: NoMemory) -> MasterFault {
        MasterFault::NoMemory
    }
}

impl From<AllocError> for MasterFault {
    ghost from_gives = { λ _ e. e ≡ OutOfMemory };

    fn from(_: AllocError) -> MasterFault {
        MasterFault::NoMemory
    }
}

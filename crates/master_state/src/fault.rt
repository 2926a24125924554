//! Why a record couldn't be replayed.

ghost use Rattle.std.specs.Prelude.{◌≡◌, Some, codes};
ghost use Rattle.master_state.specs.declared.fault.ReplayFault.TheVariants.{NoMemory as OutOfMemory};
ghost use Rattle.master_state.specs.Faults.{fault_text};

use gfs_types::no_memory::NoMemory;
use std::alloc::AllocError;
use std::error::Error;
use std::fmt;

/// Why a record couldn't be replayed. The state that met it is of no further use.
#[derive(Clone, Copy, Debug, PartialEq, Eq)]
pub enum ReplayFault {
    /// Memory was refused.
    NoMemory,
    /// The record doesn't follow this state: no master writes it here.
    Damaged,
}

impl fmt::Display for ReplayFault {
    ghost output = { λ fault. Some (fault_text fault) };

    fn fmt<W: fmt::Write>(&self, f: &mut fmt::Formatter<W>) -> fmt::Result {
        match self {
            ReplayFault::NoMemory => write!(f, "no memory"),
            ReplayFault::Damaged => write!(f, "log is damaged"),
        }
    }
}

impl Error for ReplayFault {}

impl From<NoMemory> for ReplayFault {
    ghost from_gives = { λ _ e. e ≡ OutOfMemory };

    fn from(_: NoMemory) -> ReplayFault {
        ReplayFault::NoMemory
    }
}

impl From<AllocError> for ReplayFault {
    ghost from_gives = { λ _ e. e ≡ OutOfMemory };

    fn from(_: AllocError) -> ReplayFault {
        ReplayFault::NoMemory
    }
}

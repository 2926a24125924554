//! Why a running cell, or a node of it, is not to be had.

ghost use Rattle.std.specs.Prelude.{◌≡◌, Some};
ghost use Rattle.cell_run.specs.StartFaults.{fault_text};
ghost use Rattle.cell_run.specs.declared.start_fault.StartFault.TheVariants.{NoMemory as OutOfMemory};

use gfs_types::no_memory::NoMemory;
use std::alloc::AllocError;
use std::error::Error;
use std::fmt;

/// Why a cell was not started, or does not go on.
#[derive(Clone, Copy, Debug, PartialEq, Eq)]
pub enum StartFault {
    /// A setting is out of its range.
    Config,
    /// There are no servers, or more than 64; or too few numbers are left for the clients of a cell that goes on.
    Count,
    NoMemory,
    /// A thread could not be started.
    Thread,
    /// There is no clock, or it went back.
    Clock,
}

impl fmt::Display for StartFault {
    ghost output = { λ fault. Some (fault_text fault) };

    fn fmt<W: fmt::Write>(&self, f: &mut fmt::Formatter<W>) -> fmt::Result {
        match self {
            StartFault::Config => write!(f, "a setting is out of its range"),
            StartFault::Count => write!(f, "not 1 to 64 servers, or no number left for a client"),
            StartFault::NoMemory => write!(f, "no memory"),
            StartFault::Thread => write!(f, "no thread"),
            StartFault::Clock => write!(f, "no clock, or one that went back"),
        }
    }
}

impl Error for StartFault {}

impl From<NoMemory> for StartFault {
    ghost from_gives = { λ _ e. e ≡ OutOfMemory };

    fn from(_: NoMemory) -> StartFault {
        StartFault::NoMemory
    }
}

impl From<AllocError> for StartFault {
    ghost from_gives = { λ _ e. e ≡ OutOfMemory };

    fn from(_: AllocError) -> StartFault {
        StartFault::NoMemory
    }
}

//! Why a line gives nothing.

ghost use Rattle.std.specs.Prelude.{◌≡◌, Some};
ghost use Rattle.script.specs.declared.fault.LineFault.TheVariants.{NoMemory};
ghost use Rattle.script.specs.Faults.{fault_text};
ghost use Rattle.script.specs.Words.{path_fault};

use gfs_types::path::PathFault;
use std::alloc::{AllocError, AllocFailed};
use std::error::Error;
use std::fmt;

/// Why a line gives nothing.
#[derive(Clone, Copy, Debug, PartialEq, Eq)]
pub enum LineFault {
    /// The line isn't in the language.
    Bad,
    /// Memory was refused.
    NoMemory,
}

impl fmt::Display for LineFault {
    ghost output = { λ fault. Some (fault_text fault) };

    fn fmt<W: fmt::Write>(&self, f: &mut fmt::Formatter<W>) -> fmt::Result {
        match self {
            LineFault::Bad => write!(f, "bad line"),
            LineFault::NoMemory => write!(f, "no memory"),
        }
    }
}

impl Error for LineFault {}

impl From<AllocError> for LineFault {
    ghost from_gives = { λ _ e. e ≡ NoMemory };

    fn from(_error: AllocError) -> LineFault {
        LineFault::NoMemory
    }
}

impl<T: Drop> From<AllocFailed<T>> for LineFault {
    ghost from_gives = { λ _ e. e ≡ NoMemory };

    fn from(_error: AllocFailed<T>) -> LineFault {
        LineFault::NoMemory
    }
}

impl From<PathFault> for LineFault {
    ghost from_gives = { λ fault e. e ≡ path_fault fault };

    fn from(fault: PathFault) -> LineFault {
        match fault {
            PathFault::BadPath => LineFault::Bad,
            PathFault::NoMemory => LineFault::NoMemory,
        }
    }
}

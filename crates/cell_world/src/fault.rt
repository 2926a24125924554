//! Why a list of events was not run to its end.

ghost use Rattle.std.specs.Prelude.{◌≡◌, Some};
ghost use Rattle.cell_world.specs.Faults.{fault_text};
ghost use Rattle.cell_world.specs.declared.fault.RunFault.TheVariants.{NoMemory as OutOfMemory};

use gfs_types::no_memory::NoMemory;
use std::error::Error;
use std::fmt;

/// Why a list of events was not run to its end.
#[derive(Clone, Copy, Debug, PartialEq, Eq)]
pub enum RunFault {
    /// An allocator refused the copies that are made before the first event: none of them happened.
    NoMemory,
}

impl fmt::Display for RunFault {
    ghost output = { λ fault. Some (fault_text fault) };

    fn fmt<W: fmt::Write>(&self, f: &mut fmt::Formatter<W>) -> fmt::Result {
        match self {
            RunFault::NoMemory => write!(f, "no memory"),
        }
    }
}

impl Error for RunFault {}

impl From<NoMemory> for RunFault {
    ghost from_gives = { λ _ fault. fault ≡ OutOfMemory };

    fn from(_fault: NoMemory) -> RunFault {
        RunFault::NoMemory
    }
}

//! Why a cell can't be made.

ghost use Rattle.std.specs.Prelude.{◌≡◌, Some};
ghost use Rattle.memory_nodes.specs.Starts.{fault_text};
ghost use Rattle.memory_nodes.specs.declared.start_fault.StartFault.TheVariants.{NoMemory as OutOfMemory};

use gfs_types::no_memory::NoMemory;
use std::error::Error;
use std::fmt;

/// Why a cell can't be made.
#[derive(Clone, Copy, Debug, PartialEq, Eq)]
pub enum StartFault {
    /// A setting is out of its range.
    Config,
    /// There are not 1 to 64 servers, or not 1 to 64 clients.
    Count,
    /// The names' allocator refused the first names.
    NamesFull,
    /// An allocator refused the rest.
    NoMemory,
}

impl fmt::Display for StartFault {
    ghost output = { λ fault. Some (fault_text fault) };

    fn fmt<W: fmt::Write>(&self, f: &mut fmt::Formatter<W>) -> fmt::Result {
        match self {
            StartFault::Config => write!(f, "a setting is out of its range"),
            StartFault::Count => write!(f, "not 1 to 64 servers and clients"),
            StartFault::NamesFull => write!(f, "no room for names"),
            StartFault::NoMemory => write!(f, "no memory"),
        }
    }
}

impl Error for StartFault {}

impl From<NoMemory> for StartFault {
    ghost from_gives = { λ _ fault. fault ≡ OutOfMemory };

    fn from(_fault: NoMemory) -> StartFault {
        StartFault::NoMemory
    }
}

//! Why a history is not printed to its end.

ghost use Rattle.std.specs.Prelude.{◌≡◌, ◌≢◌};
ghost use Rattle.cell_looks.specs.declared.history_fault.HistoryFault.TheVariants.{NoMemory as OutOfMemory};

use gfs_types::no_memory::NoMemory;
use std::io::{self, ErrorKind};

/// Why not all lines are printed.
#[derive(Clone, Copy, Debug, PartialEq, Eq)]
pub enum HistoryFault {
    /// Some entries were let go.
    Partial,
    /// Memory was refused.
    NoMemory,
    /// The writer failed.
    Write,
}

impl From<NoMemory> for HistoryFault {
    ghost from_gives = { λ _ fault. fault ≡ OutOfMemory };

    fn from(_fault: NoMemory) -> HistoryFault {
        HistoryFault::NoMemory
    }
}

impl HistoryFault {
    /// The fault of a writer.
    pub(crate) fn of_write(error: &io::Error) -> HistoryFault
        ensures { result ≢ HistoryFault.Partial }
    {
        match error.kind() {
            ErrorKind::OutOfMemory => HistoryFault::NoMemory,
            _ => HistoryFault::Write,
        }
    }
}

//! Why a master can't be opened over a disk.

ghost use Rattle.std.specs.Prelude.{◌≡◌, Some};
ghost use Rattle.master_cell.specs.Faults.{opening_fault_text};

use operation_log::fault::OperationLogFault;
use protocol::down_cause::DownCause;
use std::error::Error;
use std::fmt;

/// Why a master can't be opened over a disk.
#[derive(Clone, Copy, Debug, PartialEq, Eq)]
pub enum OpeningFault {
    /// The disk's log can't be opened.
    Log(OperationLogFault),
    /// The log could be opened, and the master can't be up over it.
    Down(DownCause),
}

impl fmt::Display for OpeningFault {
    ghost output = { λ fault. Some (opening_fault_text fault) };

    fn fmt<W: fmt::Write>(&self, f: &mut fmt::Formatter<W>) -> fmt::Result {
        match self {
            OpeningFault::Log(fault) => write!(f, "{fault}"),
            OpeningFault::Down(_) => write!(f, "master is down"),
        }
    }
}

impl Error for OpeningFault {}

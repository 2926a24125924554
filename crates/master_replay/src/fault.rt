//! Why a change was not made.

ghost use Rattle.std.specs.Prelude.{◌≡◌, Some};
ghost use Rattle.master_replay.specs.Faults.{fault_text};

use master_state::fault::ReplayFault;
use operation_log::fault::OperationLogFault;
use std::error::Error;
use std::fmt;

/// Why a change was not made.
#[derive(Clone, Copy, Debug, PartialEq, Eq)]
pub enum ChangeFault {
    /// The log failed as its record was appended, and the state is as it was.
    Log(OperationLogFault),
    /// Its record is in the log, and the state could not follow: it is of no further use.
    Replay(ReplayFault),
}

impl fmt::Display for ChangeFault {
    ghost output = { λ fault. Some (fault_text fault) };

    fn fmt<W: fmt::Write>(&self, f: &mut fmt::Formatter<W>) -> fmt::Result {
        match self {
            ChangeFault::Log(fault) => write!(f, "{fault}"),
            ChangeFault::Replay(fault) => write!(f, "{fault}"),
        }
    }
}

impl Error for ChangeFault {}

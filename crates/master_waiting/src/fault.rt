//! Why a step of the master comes to no end: it is put down, and nothing of the step is in the log.

ghost use Rattle.std.specs.Prelude.{◌≡◌, Some};
ghost use Rattle.master_waiting.specs.declared.fault.PlanFault.TheVariants.{NoMemory as OutOfMemory};
ghost use Rattle.master_waiting.specs.Faults.{fault_text};

use gfs_types::no_memory::NoMemory;
use master_state::fault::ReplayFault;
use std::alloc::AllocError;
use std::error::Error;
use std::fmt;

/// Why a step of the master comes to no end.
#[derive(Clone, Copy, Debug, PartialEq, Eq)]
pub enum PlanFault {
    /// Memory was refused.
    NoMemory,
    /// A counter is at its limit. A step that is taken has room for more orders and files than lie in memory, so this is an opening's alone.
    Limit,
    /// A record doesn't follow the state, which no lawful master comes to; or an opening can't read its log.
    Damaged,
}

impl fmt::Display for PlanFault {
    ghost output = { λ fault. Some (fault_text fault) };

    fn fmt<W: fmt::Write>(&self, f: &mut fmt::Formatter<W>) -> fmt::Result {
        match self {
            PlanFault::NoMemory => write!(f, "no memory"),
            PlanFault::Limit => write!(f, "counter at its limit"),
            PlanFault::Damaged => write!(f, "log is damaged"),
        }
    }
}

impl Error for PlanFault {}

impl From<NoMemory> for PlanFault {
    ghost from_gives = { λ _ e. e ≡ OutOfMemory };

    fn from(_: NoMemory) -> PlanFault {
        PlanFault::NoMemory
    }
}

impl From<AllocError> for PlanFault {
    ghost from_gives = { λ _ e. e ≡ OutOfMemory };

    fn from(_: AllocError) -> PlanFault {
        PlanFault::NoMemory
    }
}

impl From<ReplayFault> for PlanFault {
    fn from(fault: ReplayFault) -> PlanFault {
        match fault {
            ReplayFault::NoMemory => PlanFault::NoMemory,
            ReplayFault::Damaged => PlanFault::Damaged,
        }
    }
}

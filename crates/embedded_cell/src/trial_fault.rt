//! Why a trial was given up.

use anyhow::Error;
use cell_run::{Refusal, StartFault};

/// Why a trial was given up.
#[derive(Drop)]
pub enum TrialFault {
    /// Clocks were not kept: a step took longer than the clock bound, as on a machine that is busy. Nothing is said of the file.
    ClockBroken,
    Failed(Error),
}

impl From<Refusal> for TrialFault {
    fn from(refusal: Refusal) -> TrialFault {
        match refusal {
            Refusal::ClockBroken => TrialFault::ClockBroken,
            _ => TrialFault::Failed(refusal.into()),
        }
    }
}

impl From<StartFault> for TrialFault {
    fn from(fault: StartFault) -> TrialFault {
        TrialFault::Failed(fault.into())
    }
}

impl From<Error> for TrialFault {
    fn from(error: Error) -> TrialFault {
        TrialFault::Failed(error)
    }
}

//! What a node takes a step on.

use gfs_types::call::Call;
use messages::event::NodeInput;

/// What a node takes a step on.
pub enum StepCause {
    Calls(Call),
    Takes(NodeInput),
    Restarts,
}

// Stands here, once, so that no function that lets one go, here or above, takes its variants apart.
impl Drop for StepCause {
    fn drop(self) {
        match self {
            Self::Calls(_call) => {}
            Self::Takes(_input) => {}
            Self::Restarts => {}
        }
    }
}

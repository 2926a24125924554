//! An attempt that is about to begin.

use crate::plan::CallPlan;
use client_state::call::CurrentCall;
use client_state::kept::Place;

/// An attempt as it was planned.
#[derive(Drop)]
pub struct Attempt {
    pub current: CurrentCall,
    /// None where no server is left that could be asked to read.
    pub plan: Option<CallPlan>,
    /// The chunk whose kept location was looked for.
    pub looked: Option<Place>,
}

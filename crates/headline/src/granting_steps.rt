//! Laws of the steps in which the master grants.

ghost use Rattle.headline.specs.GrantingSteps.{GrantedChunksStay};

/// What is granted was attempted, and has its row after the step, in which no file is collected.
pub fn granted_chunks_stay()
    ensures { GrantedChunksStay }
{}

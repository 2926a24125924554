//! Laws of the master's whole steps in reached worlds, beside a machine that has the same names.

ghost use Rattle.laws_names.specs.FollowedSteps.{RestartsAreFollowed, StepsAreFollowed, StoppedStepsAreFollowed};

/// The machine follows a step of the master that goes through, where a Name that may take effect, and a Look, is of its client's open call.
pub fn steps_are_followed()
    ensures { StepsAreFollowed }
{}

/// So wherever the step stops, and however it is decided what was under way, the machine follows to where the log has come.
pub fn stopped_steps_are_followed()
    ensures { StoppedStepsAreFollowed }
{}

/// After a restart the names are those of the machine beside the log that was decided, also where the opening stops.
pub fn restarts_are_followed()
    ensures { RestartsAreFollowed }
{}

//! Laws of a client's steps and calls in reached worlds, beside the machine.

ghost use Rattle.laws_names.specs.BesideClients.{ClientCallsAreFollowed, ClientStepsAreFollowed};

/// The machine follows a step of a client, whatever it takes and however it ends.
pub fn client_steps_are_followed()
    ensures { ClientStepsAreFollowed }
{}

/// It follows a call, of names or on a file, however it ends.
pub fn client_calls_are_followed()
    ensures { ClientCallsAreFollowed }
{}

//! A law of every lawful list of events from a new cell: calls, deliveries, losses, repeats, ticks, restarts, stops in a step, refused memory and rot.

ghost use Rattle.laws_machine.specs.OpenAttempts.{AttemptsAreOverOrOpen};

/// Each attempt of a client is past its deadline and the clock bound, or a server answered it, or a later one of the client under a version that is not lower; or it was sent in the client's last call, which is open.
pub fn attempts_are_over_or_open()
    ensures { AttemptsAreOverOrOpen }
{}

//! A law of every lawful list of events from a new cell: calls, deliveries, losses, repeats, ticks, restarts, stops in a step, refused memory and rot.

ghost use Rattle.laws_machine.specs.CallSteps.{AttemptsAreAnsweredByServers};

/// Each Done of a client's data, and each refusal to it under their number, was sent by a server: the master refuses asks alone.
pub fn attempts_are_answered_by_servers()
    ensures { AttemptsAreAnsweredByServers }
{}

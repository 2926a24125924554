//! A law of every lawful list of events from a new cell: calls, deliveries, losses, repeats, ticks, restarts, stops in a step, refused memory and rot.

ghost use Rattle.laws_machine.specs.PassedAttempts.{PassedAttemptsHaveNoLease};

/// Where clocks are kept, of two attempts of a client for one place in a file, by locations with different handles and granted rounds, of which a server answered the later one, the earlier one's lease is over.
pub fn passed_attempts_have_no_lease()
    ensures { PassedAttemptsHaveNoLease }
{}

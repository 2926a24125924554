//! Laws of every lawful list of events from a new cell: calls, deliveries, losses, repeats, ticks, restarts, stops in a step, refused memory and rot.

ghost use Rattle.laws_base.specs.KeptAttempts.{KeptAttemptsStandSo, NumbersOfEntriesAreKept, NumbersThatWaitAreKept};

/// What a primary keeps as pending of a client's last attempt waits, and what it keeps as settled has a settled entry of the lease's round.
pub fn kept_attempts_stand_so()
    ensures { KeptAttemptsStandSo }
{}

/// Of each entry of its lease's round a primary keeps the client's number, or a later one of that client.
pub fn numbers_of_entries_are_kept()
    ensures { NumbersOfEntriesAreKept }
{}

/// Of each mutation that waits a primary keeps the client's number, or a later one of that client.
pub fn numbers_that_wait_are_kept()
    ensures { NumbersThatWaitAreKept }
{}

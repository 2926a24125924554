//! Laws of how many calls a run of the whole machine has.

ghost use Rattle.laws_machine.specs.CountedCalls.{CallsAreCounted};

/// A client has made just as many calls as the run's trace shows, and its open call is the last of them.
pub fn calls_are_counted()
    ensures { CallsAreCounted }
{}

//! A law of every lawful list of events from a new cell: calls, deliveries, losses, repeats, ticks, restarts, stops in a step, refused memory and rot.

ghost use Rattle.laws_base.specs.Successes.{SuccessesWereSettled};

/// Each Done that was sent tells the place at which a server numbered a mutation of the same data, in a step of the list, and that mutation became settled in this step or another one.
pub fn successes_were_settled()
    ensures { SuccessesWereSettled }
{}

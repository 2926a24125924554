//! Laws of every lawful list of events from a new cell: calls, deliveries, losses, repeats, ticks, restarts, stops in a step, refused memory and rot.

ghost use Rattle.laws_base.specs.Numbers.{ClientNumbersRise, LaterRequestsHaveLaterNumbers};

/// The numbers of a client, of its calls and of its descriptors, and its clock, never fall while it is up.
pub fn client_numbers_rise()
    ensures { ClientNumbersRise }
{}

/// An ask, a reading, a push or a Mutate that a client sends later has a number that it has not used yet, but for the Mutate of the data for which it waits.
pub fn later_requests_have_later_numbers()
    ensures { LaterRequestsHaveLaterNumbers }
{}

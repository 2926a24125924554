//! Laws of every lawful list of events from a new cell: calls, deliveries, losses, repeats, ticks, restarts, stops in a step, refused memory and rot.

ghost use Rattle.laws_base.specs.Attempts.{RequestsAreNumberedOnce, RequestsCarryUsedNumbers};

/// A client's asks, readings and pushes have one number each, and a primary is asked once at most to place the data of a number.
pub fn requests_are_numbered_once()
    ensures { RequestsAreNumberedOnce }
{}

/// What a client that is up has sent are requests, each under a number that it has used; pushed data and mutations are its own.
pub fn requests_carry_used_numbers()
    ensures { RequestsCarryUsedNumbers }
{}

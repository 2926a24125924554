//! A law of every lawful list of events from a new cell: calls, deliveries, losses, repeats, ticks, restarts, stops in a step, refused memory and rot.

ghost use Rattle.laws_base.specs.SerialsOnce.{SerialsAreGivenOnce};

/// After a step in which a server numbered a mutation, no server numbers one under the same serial and the same version of the chunk.
pub fn serials_are_given_once()
    ensures { SerialsAreGivenOnce }
{}

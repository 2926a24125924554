//! A law of every lawful list of events from a new cell: calls, deliveries, losses, repeats, ticks, restarts, stops in a step, refused memory and rot.

ghost use Rattle.laws_base.specs.TakenSuccesses.{SuccessesAreOfTheNotedRound};

/// Each Done that tells a client of the data for which it waits, also an old or repeated one, tells the place at which they were numbered in the chunk and under the round that it noted, and their mutation became settled.
pub fn successes_are_of_the_noted_round()
    ensures { SuccessesAreOfTheNotedRound }
{}

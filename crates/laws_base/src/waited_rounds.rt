//! Laws of every lawful list of events from a new cell: calls, deliveries, losses, repeats, ticks, restarts, stops in a step, refused memory and rot.

ghost use Rattle.laws_base.specs.WaitedRounds.{EntriesAreOfTheNotedRound, WaitedMutatesWereSent};

/// While a client waits for a primary to place its data, it has asked for that, in the chunk and under the round that it noted.
pub fn waited_mutates_were_sent()
    ensures { WaitedMutatesWereSent }
{}

/// An entry of the number for which a client waits is of the round that it noted, in the chunk that it noted or in a copy.
pub fn entries_are_of_the_noted_round()
    ensures { EntriesAreOfTheNotedRound }
{}

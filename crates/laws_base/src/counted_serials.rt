//! Laws of every lawful list of events from a new cell: restarts, stops in a step, losses, repeats, refused memory and rot.

ghost use Rattle.laws_base.specs.CountedSerials.{SerialsOfRoundsAreCounted, LeasesCountTheirSerials, SerialsHaveOneEntry, NumberedSerialsFollow};

/// In each chunk's order the entries of a round have the serials from 1 on, each once, in order.
pub fn serials_of_rounds_are_counted()
    ensures { SerialsOfRoundsAreCounted }
{}

/// While a lease is held, the entries of its round have the serials from 1 to the lease's, each once, in order.
pub fn leases_count_their_serials()
    ensures { LeasesCountTheirSerials }
{}

/// A serial of a round has one entry at most in each chunk's order.
pub fn serials_have_one_entry()
    ensures { SerialsHaveOneEntry }
{}

/// What a server numbers follows the serials that were given under this version of the chunk.
pub fn numbered_serials_follow()
    ensures { NumberedSerialsFollow }
{}

//! Laws of every lawful list of events from a new cell: restarts, stops in a step, losses, repeats, refused memory and rot.

ghost use Rattle.laws_base.specs.RisingRounds.{LowerLeasesAreOver, EntriesAreOfGrantedRounds, CopiesBeginWithTheirSource, RoundsOfOrdersRise};

/// Where clocks are kept, of two versions of a chunk that were granted the lease of the lower one is over.
pub fn lower_leases_are_over()
    ensures { LowerLeasesAreOver }
{}

/// The round of each entry was granted to its chunk, or lies below each version that was granted to it, as in a copy.
pub fn entries_are_of_granted_rounds()
    ensures { EntriesAreOfGrantedRounds }
{}

/// From the step on that begins a copy, the copy's order begins with that which its source had before it, but for what became settled since, and each version of the copy that is granted is above the rounds of these entries.
pub fn copies_begin_with_their_source()
    ensures { CopiesBeginWithTheirSource }
{}

/// Where clocks are kept, the rounds of a chunk's order never fall.
pub fn rounds_of_orders_rise()
    ensures { RoundsOfOrdersRise }
{}

//! A law of every lawful list of events from a new cell: calls, deliveries, losses, repeats, ticks, restarts, stops in a step, refused memory and rot.

ghost use Rattle.laws_base.specs.NewCopies.{NewCopiesHaveNoLease};

/// As the master begins a copy of a chunk, no Grant was sent for the copy's handle, so that no server holds a lease of it.
pub fn new_copies_have_no_lease()
    ensures { NewCopiesHaveNoLease }
{}

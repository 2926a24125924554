//! Laws of every lawful list of events from a new cell: restarts, stops in a step, losses, repeats, refused memory and rot.

ghost use Rattle.laws_base.specs.NewHandles.{CopiesHaveNewHandles, RoundsOfEntriesWereIssued};

/// As the master shows that it begins a copy, no Grant of the copy's handle was sent, no server has a lease of it, and it has no entry.
pub fn copies_have_new_handles()
    ensures { CopiesHaveNewHandles }
{}

/// At a master that is up the handle of each chunk that has an entry was used, and the round of the entry was issued and lies below the number that is attempted.
pub fn rounds_of_entries_were_issued()
    ensures { RoundsOfEntriesWereIssued }
{}

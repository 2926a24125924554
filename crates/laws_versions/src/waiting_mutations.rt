//! Laws of every lawful list of events from a new cell: restarts, stops in a step, losses, repeats, refused memory and rot.

ghost use Rattle.laws_versions.specs.WaitingMutations.{WaitingMutationsCountAcknowledgements, WaitingMutationsAreNotSettled, SettledMutationsWereAcknowledged};

/// A mutation that waits at a primary waits for each member of the lease but for the primary and those that acknowledged it.
pub fn waiting_mutations_count_acknowledgements()
    ensures { WaitingMutationsCountAcknowledgements }
{}

/// The entry of a mutation that waits at a primary is not settled.
pub fn waiting_mutations_are_not_settled()
    ensures { WaitingMutationsAreNotSettled }
{}

/// A mutation becomes settled at a server that holds a lease of its version which counts, and of which each other member acknowledged it before.
pub fn settled_mutations_were_acknowledged()
    ensures { SettledMutationsWereAcknowledged }
{}

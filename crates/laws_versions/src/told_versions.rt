//! Laws of what servers say of their versions and of what the master keeps of it, in every lawful list of events from a new cell: restarts, stops in a step, losses, repeats, refused memory and rot.

ghost use Rattle.laws_versions.specs.ToldVersions.{HoldersWereOrdered, SaidVersionsWereOrdered};

/// Each version that a server says it has, by a Recorded, a Cloned or a line of a Report, was given to it by an order, or it was ordered to clone it.
pub fn said_versions_were_ordered()
    ensures { SaidVersionsWereOrdered }
{}

/// Each version that a master that is up keeps of a server's replicas was given to the server by an order, or it was ordered to clone it.
pub fn holders_were_ordered()
    ensures { HoldersWereOrdered }
{}

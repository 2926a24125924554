//! Laws of the orders that servers have taken, in every lawful list of events from a new cell: restarts, stops in a step, losses, repeats, refused memory and rot.

ghost use Rattle.laws_versions.specs.TakenOrders.{ReplicasAreOfTakenOrders, PendingClonesAreOfTakenOrders, ToldVersionsAreOfTakenOrders};

/// Each replica on a server's disk, also of one that is down, has the version of an order that the server took: one that gave it, or had it cloned. The server refuses that order from then on.
pub fn replicas_are_of_taken_orders()
    ensures { ReplicasAreOfTakenOrders }
{}

/// So has each clone for which a server waits.
pub fn pending_clones_are_of_taken_orders()
    ensures { PendingClonesAreOfTakenOrders }
{}

/// So has each version that a server told the master by a Recorded or a line of a Report.
pub fn told_versions_are_of_taken_orders()
    ensures { ToldVersionsAreOfTakenOrders }
{}

//! Laws of copies that are under way at the master, in every lawful list of events from a new cell: restarts, stops in a step, losses, repeats, refused memory and rot.

ghost use Rattle.laws_versions.specs.CopiedOrders.{CopiesUnderWayHaveTheirSourcesOrder, CopiesUnderWayAreNotGranted};

/// Where clocks are kept, the order of a copy that is under way at a master that is up is its source's, also in what is settled.
pub fn copies_under_way_have_their_sources_order()
    ensures { CopiesUnderWayHaveTheirSourcesOrder }
{}

/// Where clocks are kept, nothing was granted of a copy that is under way at a master that is up, and what was issued of it comes after what was issued of its source and after each round of its order.
pub fn copies_under_way_are_not_granted()
    ensures { CopiesUnderWayAreNotGranted }
{}

//! Laws of every lawful list of events from a new cell: restarts, stops in a step, losses, repeats, refused memory and rot.

ghost use Rattle.laws_versions.specs.LawfulOrders.{NumberedMutationsMayFollow, OrdersAreLawful};

/// Where clocks and disks are kept, what a server numbers lies where the machine may place it: a record or a pad begins at 0 or at an entry's end, past each entry that is settled or of its round, and within the chunk; a pad only where the record doesn't fit, up to the chunk's end.
pub fn numbered_mutations_may_follow()
    ensures { NumberedMutationsMayFollow }
{}

/// Where clocks and disks are kept, each entry of each order is so behind those before it, rounds of the order never fall, and the order of a copy begins with its source's up to the version that is copied.
pub fn orders_are_lawful()
    ensures { OrdersAreLawful }
{}

//! Laws of every step of a server, also one that stops.

ghost use Rattle.laws_base.specs.ReplicaChanges.{ReplicasChangeInSerialOrder, ReplicasAreFoundInSerialOrder};

/// A replica that stays over a server's step loses no bytes; it is as it was, or has its bytes and serial 0, or was written to at its version, under a later serial than its last one or one that the step shows.
pub fn replicas_change_in_serial_order()
    ensures { ReplicasChangeInSerialOrder }
{}

/// The same of what a restart finds after the step, however the change under way is decided, for every lawful list of events from a new cell.
pub fn replicas_are_found_in_serial_order()
    ensures { ReplicasAreFoundInSerialOrder }
{}

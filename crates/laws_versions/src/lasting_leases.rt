//! Laws of every lawful list of events from a new cell: restarts, stops in a step, losses, repeats, refused memory and rot.

ghost use Rattle.laws_versions.specs.LastingLeases.{LeasesThatAreNotOverAreTheLast, PrimariesHaveTheirSerial};

/// Where clocks and disks are kept, from a Grant on until its lease is over, no entry of its chunk is of a later round, no order gives a later version, and replicas of its version stand at its members alone.
pub fn leases_that_are_not_over_are_the_last()
    ensures { LeasesThatAreNotOverAreTheLast }
{}

/// Where clocks and disks are kept, while a lease lasts, the last serial of its server's replica is the last one that was given under the lease.
pub fn primaries_have_their_serial()
    ensures { PrimariesHaveTheirSerial }
{}

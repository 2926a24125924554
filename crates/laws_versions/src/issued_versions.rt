//! Laws of chunks of which a number was issued since the last grant, in every lawful list of events from a new cell: restarts, stops in a step, losses, repeats, refused memory and rot.

ghost use Rattle.laws_versions.specs.IssuedVersions.{IssuedChunksHaveNoLease, LastingLeasesAreOfTheLastNumber};

/// Where clocks are kept, each lease of a chunk is over once a number was issued since the last grant, also one that was logged and sent to nobody.
pub fn issued_chunks_have_no_lease()
    ensures { IssuedChunksHaveNoLease }
{}

/// So a lease that lasts is of the version that was granted last, and no number was issued of its chunk since.
pub fn lasting_leases_are_of_the_last_number()
    ensures { LastingLeasesAreOfTheLastNumber }
{}

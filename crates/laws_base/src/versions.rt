//! Laws of versions and leases in every lawful list of events from a new cell: restarts, stops in a step, losses, repeats, refused memory and rot.

ghost use Rattle.laws_base.specs.Versions.{AttemptedChunksHaveNoLease, EndedLeasesAreOver, LeasesInTheLogAreOver, LeasesStayOver, OverLeasesNumberNothing};

/// Where clocks are kept, the lease of each version of a chunk but the granted one is over at a master that is up, and that of the granted one is over where it has ended at the master.
pub fn ended_leases_are_over()
    ensures { EndedLeasesAreOver }
{}

/// Where clocks are kept, the lease of each version of a chunk but the one that the log, replayed, grants is over, also while the master is down.
pub fn leases_in_the_log_are_over()
    ensures { LeasesInTheLogAreOver }
{}

/// Where clocks are kept, while a version of a chunk is attempted, it is above the granted one, and all leases of the chunk are over.
pub fn attempted_chunks_have_no_lease()
    ensures { AttemptedChunksHaveNoLease }
{}

/// A lease that was granted and is over stays over in all that follows, as long as clocks are kept: no server holds it so that it lasts, nor will.
pub fn leases_stay_over()
    ensures { LeasesStayOver }
{}

/// Where clocks are kept, no lease that is over counts for its primary as it begins a step, so that no mutation is numbered under its version.
pub fn over_leases_number_nothing()
    ensures { OverLeasesNumberNothing }
{}

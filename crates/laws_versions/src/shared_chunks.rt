//! Laws of chunks that several files share, in every lawful list of events from a new cell: restarts, stops in a step, losses, repeats, refused memory and rot.

ghost use Rattle.laws_versions.specs.SharedChunks.{SharedChunksHaveNoLease, SharedChunksInTheLogHaveNoLease};

/// Where clocks are kept, a chunk with several owners at a master that is up has no version attempt, and each of its leases is over.
pub fn shared_chunks_have_no_lease()
    ensures { SharedChunksHaveNoLease }
{}

/// Where clocks are kept, each lease of a chunk that has several owners in the log, replayed, is over, also while the master is down.
pub fn shared_chunks_in_the_log_have_no_lease()
    ensures { SharedChunksInTheLogHaveNoLease }
{}

//! Laws of chunks whose place in a file a copy took, in every lawful list of events from a new cell: restarts, stops in a step, losses, repeats, refused memory and rot.

ghost use Rattle.laws_versions.specs.ReplacedChunks.{ReplacedChunksHaveNoLease, ToldChunksStandOrAreOver};

/// Where clocks are kept, a chunk that was told to a client with a granted round stands at its place in the file, at a master that is up and in the log, or the file is gone, or the lease of the told round is over.
pub fn told_chunks_stand_or_are_over()
    ensures { ToldChunksStandOrAreOver }
{}

/// Where clocks are kept, of two locations that were told with granted rounds for one place in a file, with different handles, the first one's lease is over.
pub fn replaced_chunks_have_no_lease()
    ensures { ReplacedChunksHaveNoLease }
{}

//! A law of chunks that are being copied, in every lawful list of events from a new cell: restarts, stops in a step, losses, repeats, refused memory and rot.

ghost use Rattle.laws_versions.specs.CopiedSources.{CopiedChunksHaveNoLease};

/// Where clocks are kept, a chunk of which a copy is under way at a master that is up has no version attempt, and each of its leases is over.
pub fn copied_chunks_have_no_lease()
    ensures { CopiedChunksHaveNoLease }
{}

//! Laws of every lawful list of events from a new cell: calls, deliveries, losses, repeats, ticks, restarts, stops in a step, refused memory and rot.

ghost use Rattle.laws_base.specs.Replicas.{ReplicasLieWithinTheChunk, LeasesHaveTheirReplica, MutationsArePlacedByReplicas, PrimariesApplyWhatTheyNumber};

/// Each replica lies within the settings' chunk: on the disk of a server, and on what a restart finds, however the change under way at a stop is decided.
pub fn replicas_lie_within_the_chunk()
    ensures { ReplicasLieWithinTheChunk }
{}

/// A server that holds a lease of a chunk has a replica of just that version.
pub fn leases_have_their_replica()
    ensures { LeasesHaveTheirReplica }
{}

/// A server numbers a mutation under the next serial of a lease that it holds, of data that it keeps, within the chunk: a record just behind the bytes of its own replica of that version where it fits, and else a pad from there to the chunk's end, unless that replica is full.
pub fn mutations_are_placed_by_replicas()
    ensures { MutationsArePlacedByReplicas }
{}

/// A server that numbers a mutation applies it to its replica in the same step, or holds no lease of the chunk after it.
pub fn primaries_apply_what_they_number()
    ensures { PrimariesApplyWhatTheyNumber }
{}

//! The law of every lawful list of events from a new cell on where replicas end: calls, deliveries, losses, repeats, ticks, restarts, stops in a step, refused memory and rot.

ghost use Rattle.laws_versions.specs.EndedReplicas.{ReplicasEndAtEntries};

/// Where clocks are kept, each replica has no bytes, or ends where an entry of its chunk's order ends.
pub fn replicas_end_at_entries()
    ensures { ReplicasEndAtEntries }
{}

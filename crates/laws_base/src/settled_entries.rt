//! Laws of every lawful list of events from a new cell: calls, deliveries, losses, repeats, ticks, restarts, stops in a step, refused memory and rot.

ghost use Rattle.laws_base.specs.SettledEntries.{SuccessesHaveEntries, SuccessesAreAtTheirChunk, NotedSuccessesHaveEntries, WaitingMutationsHaveEntries};

/// Of each Done that was sent a chunk's order has an entry of these data, at the place that is told, and it is settled.
pub fn successes_have_entries()
    ensures { SuccessesHaveEntries }
{}

/// It stands in the order of the chunk, and is of the round, that the Mutate of the data names.
pub fn successes_are_at_their_chunk()
    ensures { SuccessesAreAtTheirChunk }
{}

/// Of a Done of the data for which a client waits the order of the chunk that it noted has such an entry, of the round that it noted.
pub fn noted_successes_have_entries()
    ensures { NotedSuccessesHaveEntries }
{}

/// Each mutation that waits at a primary has an entry of the lease's round, under its serial, of its attempt and at its place.
pub fn waiting_mutations_have_entries()
    ensures { WaitingMutationsHaveEntries }
{}

//! A law of every lawful list of events from a new cell: calls, deliveries, losses, repeats, ticks, restarts, stops in a step, refused memory and rot.

ghost use Rattle.laws_base.specs.FewAttempts.{PartsHaveFewAttempts};

/// For a part of a call its client asks primaries to place data at most as often as the setting says, and once where it says never; of an append those don't count to which ChunkFull was answered.
pub fn parts_have_few_attempts()
    ensures { PartsHaveFewAttempts }
{}

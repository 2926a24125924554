//! A law of every lawful list of events from a new cell: calls, deliveries, losses, repeats, ticks, restarts, stops in a step, refused memory and rot.

ghost use Rattle.laws_machine.specs.AnsweredWrites.{AnsweredWritesHaveTheirBytes};

/// Each part of a write that is answered Done has a settled entry with the part's bytes at its place, each by an attempt of its own, in the order of the chunk that the client was told for the part's index of its file.
pub fn answered_writes_have_their_bytes()
    ensures { AnsweredWritesHaveTheirBytes }
{}

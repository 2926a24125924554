//! Laws of every lawful list of events from a new cell: calls, deliveries, losses, repeats, ticks, restarts, stops in a step, refused memory and rot.

ghost use Rattle.laws_base.specs.Bytes.{AnsweredAppendsHaveTheirBytes};
ghost use Rattle.laws_base.specs.AnsweredAppends.{AnsweredAppendsHaveEntries};

/// The place that a client answers an open append is that of a settled entry of its own data in some chunk's order.
pub fn answered_appends_have_entries()
    ensures { AnsweredAppendsHaveEntries }
{}

/// The place that a client answers an open append is that of a settled entry of its own data, with the bytes of this very call.
pub fn answered_appends_have_their_bytes()
    ensures { AnsweredAppendsHaveTheirBytes }
{}

//! Laws of every lawful list of events from a new cell: calls, deliveries, losses, repeats, ticks, restarts, stops in a step, refused memory and rot.

ghost use Rattle.laws_base.specs.Reads.{ReadsAreOfTheToldVersion};

/// A client that waits for a reading asked a server of a location that it was told for the file, under the version that was told for this server, which is at least the told round; and what is answered to it was so, at this server and version, while the client waited.
pub fn reads_are_of_the_told_version()
    ensures { ReadsAreOfTheToldVersion }
{}

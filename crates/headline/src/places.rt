//! Laws of every lawful list of events from a new cell: calls, deliveries, losses, repeats, ticks, restarts, stops in a step, refused memory and rot.

ghost use Rattle.headline.specs.Places.{FilesAreWithinPlaces};

/// While the master is up, each byte of each chunk of a file is at a place within the counters' limit, and so within 64 bits.
pub fn files_are_within_places()
    ensures { FilesAreWithinPlaces }
{}

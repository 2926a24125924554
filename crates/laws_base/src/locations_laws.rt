//! Laws of every lawful list of events from a new cell: calls, deliveries, losses, repeats, ticks, restarts, stops in a step, refused memory and rot.

ghost use Rattle.laws_base.specs.Locations.{AttemptsGoByToldLocations, LocationsAreNotUsedTooLong};

/// The location by which a client's attempt goes was told to this client, in answer to its own ask for a chunk of that file, less than the cache's time before the attempt began, by the client's own clock, or later than that; and the client has not opened the file since.
pub fn attempts_go_by_told_locations()
    ensures { AttemptsGoByToldLocations }
{}

/// Each push, Mutate, reading and length that a client sends goes by a location that it was told less than the cache's time before, by its own clock, in answer to its own ask for a chunk of that file; and the client has not opened the file since.
pub fn locations_are_not_used_too_long()
    ensures { LocationsAreNotUsedTooLong }
{}

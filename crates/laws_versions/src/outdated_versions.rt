//! Laws of versions below the granted one of their chunk, in every lawful list of events from a new cell: restarts, stops in a step, losses, repeats, refused memory and rot.

ghost use Rattle.laws_versions.specs.OutdatedVersions.{DropsAreOfUselessReplicas, OutdatedVersionsStayOutdated};

/// A Drop that the master sends in a step goes to the server whose Report the step takes, and names a version that is a line of it: the chunk is not logged, or has a newer version granted.
pub fn drops_are_of_useless_replicas()
    ensures { DropsAreOfUselessReplicas }
{}

/// A version that is below the granted one of its chunk stays so, or the chunk goes, in all that follows, and a chunk that is gone stays gone: at a master that is up, and in its log.
pub fn outdated_versions_stay_outdated()
    ensures { OutdatedVersionsStayOutdated }
{}

//! Laws of the versions that servers hold, in every lawful list of events from a new cell: restarts, stops in a step, losses, repeats, refused memory and rot.

ghost use Rattle.laws_versions.specs.HeldVersions.{AttemptsAloneHoldTheirVersion, MembersAloneHoldAVersion, ReplicasWereOrdered};

/// Each replica on a server's disk, also of one that is down, has a version that an order to this server gave it, or that it was ordered to clone.
pub fn replicas_were_ordered()
    ensures { ReplicasWereOrdered }
{}

/// A replica of a version that was granted stands at a member of its Grant, or was cloned.
pub fn members_alone_hold_a_version()
    ensures { MembersAloneHoldAVersion }
{}

/// A replica of a version that is attempted at a master that is up stands at a server of the attempt, or was cloned.
pub fn attempts_alone_hold_their_version()
    ensures { AttemptsAloneHoldTheirVersion }
{}

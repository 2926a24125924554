//! Laws of what is said of leases, by Grants, Extends, Revokes and Revokeds, in every lawful list of events from a new cell: restarts, stops in a step, losses, repeats, refused memory and rot.

ghost use Rattle.laws_versions.specs.LeaseWords.{LeasesAreSaidToOneServer, RevokedLeasesAreOver, RevokesFollowTheirGrants, ToldEndsAreTheMasters};

/// All that is said of the lease of a version, its Grant and each Extend, goes to one server.
pub fn leases_are_said_to_one_server()
    ensures { LeasesAreSaidToOneServer }
{}

/// Where clocks are kept, each end of a lease that a Grant or an Extend told is past, or a server said that the lease is over, or it is of the version that was granted last, and no later than a master that is up counts.
pub fn told_ends_are_the_masters()
    ensures { ToldEndsAreTheMasters }
{}

/// A Revoke goes to the server to which its version was granted, and has no earlier number than that Grant.
pub fn revokes_follow_their_grants()
    ensures { RevokesFollowTheirGrants }
{}

/// Once a server said Revoked, the lease is over: no server holds it so that it lasts, and its Grant is refused or has ended.
pub fn revoked_leases_are_over()
    ensures { RevokedLeasesAreOver }
{}

//! Laws of the one order that gives a server a version, in every lawful list of events from a new cell: restarts, stops in a step, losses, repeats, refused memory and rot.

ghost use Rattle.laws_versions.specs.GivenOnce.{ClonesFollowTheirVersions, GrantedOrdersAreRefused, HeldVersionsRefuseTheirOrder, PendingClonesRefuseTheirOrder, ToldVersionsRefuseTheirOrder, VersionsAreGivenOnce};

/// One order at most gives a server a version of a chunk.
pub fn versions_are_given_once()
    ensures { VersionsAreGivenOnce }
{}

/// A Clone is sent after each order that gives a server the version, and has a later number.
pub fn clones_follow_their_versions()
    ensures { ClonesFollowTheirVersions }
{}

/// A server that has a replica, also one that is down, refuses each order that gives it that version.
pub fn held_versions_refuse_their_order()
    ensures { HeldVersionsRefuseTheirOrder }
{}

/// So does a server that waits for a clone of that version.
pub fn pending_clones_refuse_their_order()
    ensures { PendingClonesRefuseTheirOrder }
{}

/// So does a server that told the master, by a Recorded or a line of a Report, that it has that version.
pub fn told_versions_refuse_their_order()
    ensures { ToldVersionsRefuseTheirOrder }
{}

/// Once a version was granted, each order that gives it is refused by the server to which it was sent.
pub fn granted_orders_are_refused()
    ensures { GrantedOrdersAreRefused }
{}

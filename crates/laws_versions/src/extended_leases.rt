//! Laws of Extends, in every lawful list of events from a new cell: restarts, stops in a step, losses, repeats, refused memory and rot.

ghost use Rattle.laws_versions.specs.ExtendedLeases.{ExtendsAnswerReports, ExtendsFollowTheirGrants};

/// An Extend answers a Report of its receiver, sent before, that has a line of the lease.
pub fn extends_answer_reports()
    ensures { ExtendsAnswerReports }
{}

/// An Extend was sent after the Grant of its version, to the same server.
pub fn extends_follow_their_grants()
    ensures { ExtendsFollowTheirGrants }
{}

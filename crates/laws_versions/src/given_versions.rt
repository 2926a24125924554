//! Laws of the orders that give servers a version, in every lawful list of events from a new cell: restarts, stops in a step, losses, repeats, refused memory and rot.

ghost use Rattle.laws_versions.specs.GivenVersions.{AttemptsAreGivenToTheirServers, MembersAloneAreGivenAVersion};

/// Each order that gives a server a version which is granted went to a member of its Grant, before it or after it.
pub fn members_alone_are_given_a_version()
    ensures { MembersAloneAreGivenAVersion }
{}

/// Each order that gives a server a version which is attempted at a master that is up went to a server of the attempt, and no Grant of it was sent.
pub fn attempts_are_given_to_their_servers()
    ensures { AttemptsAreGivenToTheirServers }
{}

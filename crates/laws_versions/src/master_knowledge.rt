//! Laws of what the master knows of attempts and leases, in every lawful list of events from a new cell: restarts, stops in a step, losses, repeats, refused memory and rot.

ghost use Rattle.laws_versions.specs.MasterKnowledge.{LeaseMembersAreTheRows, MembersAreTheRows, RecordedServersRefuseTheirOrder};

/// A server that the master counts among those that recorded a version attempt refuses each order that gives it that version.
pub fn recorded_servers_refuse_their_order()
    ensures { RecordedServersRefuseTheirOrder }
{}

/// The Grant of the granted version of a chunk names the members of the chunk's row, at a master that is up and in the log, also of one that is down.
pub fn members_are_the_rows()
    ensures { MembersAreTheRows }
{}

/// So does a lease of that version that a server holds.
pub fn lease_members_are_the_rows()
    ensures { LeaseMembersAreTheRows }
{}

//! Laws of the whole machine beside a world: a new world has one, and each event of a server keeps one.

ghost use Rattle.laws_machine.specs.WholeWorlds.{NewWorldsAreWhole, ServersEventsKeepWorldsWhole};

/// A new machine is beside a new world.
pub fn new_worlds_are_whole()
    ensures { NewWorldsAreWhole }
{}

/// An event of a server keeps a machine beside the world, where what it numbers is for open calls and what it answers may be looked at.
pub fn servers_events_keep_worlds_whole()
    ensures { ServersEventsKeepWorldsWhole }
{}

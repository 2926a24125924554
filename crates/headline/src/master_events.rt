//! Each event of the master keeps the whole machine beside the world.

ghost use Rattle.headline.specs.MasterEvents.{MastersEventsKeepWorldsWhole};

/// A step of the master that goes through, stops, is lost or is refused by its limits, and a restart: under settings in their ranges, where what it adds was asked for, holders may go on and what it tells may be offered, the whole machine is beside the world after it.
pub fn masters_events_keep_worlds_whole()
    ensures { MastersEventsKeepWorldsWhole }
{}

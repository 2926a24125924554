//! Laws of every lawful list of events from a new cell: restarts, stops in a step, losses, repeats, refused memory and rot.

ghost use Rattle.laws_versions.specs.PushedData.{PushedDataAreTheClients, DataArePushedOnce, KeptDataMakeTheirEntries};

/// What a server keeps as pushed, and what any Push carries, the client of the data pushed.
pub fn pushed_data_are_the_clients()
    ensures { PushedDataAreTheClients }
{}

/// A client pushes one thing under a number.
pub fn data_are_pushed_once()
    ensures { DataArePushedOnce }
{}

/// Each entry of data that a server keeps is made of them.
pub fn kept_data_make_their_entries()
    ensures { KeptDataMakeTheirEntries }
{}

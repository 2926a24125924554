//! A law of a client's steps in its name call, beside a machine that is alike with the master.

ghost use Rattle.laws_names.specs.FollowedClients.{NameCallsAreBegun, NameCallsAreFollowed};

/// The machine follows a client as it makes a name call, and in each step while that is open: clients see the same, and all stays alike.
pub fn name_calls_are_followed()
    ensures begun { NameCallsAreBegun }
    ensures followed { NameCallsAreFollowed }
{}

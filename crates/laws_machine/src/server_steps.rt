//! Laws of what servers number and settle beside a machine that has the same chunks.

ghost use Rattle.laws_machine.specs.ServerSteps.{EntryActionsAreUnseen, OtherEventsAreTaken};

/// What a server numbers and settles at an event the machine places and settles, where each client's call is alike.
pub fn other_events_are_taken()
    ensures { OtherEventsAreTaken }
{}

/// Clients see nothing of it, and it leaves the names.
pub fn entry_actions_are_unseen()
    ensures { EntryActionsAreUnseen }
{}

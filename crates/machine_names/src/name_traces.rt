//! Laws of what clients see of a run by names.

ghost use Rattle.machine_names.specs.NameTraces.{AnsweredNamesCameToIt, ClockAndSettingsAreSeen, UnseenClientsAreLeft};

/// A client of which nothing is seen keeps its call and has as many descriptors; the clock is the last moment that was seen to pass, and the settings stay.
pub fn unseen_clients_are_left()
    ensures clients { UnseenClientsAreLeft }
    ensures clock { ClockAndSettingsAreSeen }
{}

/// Each answer to a name call that is seen is what the call came to at one moment of the call, or Unknown or NoMemory.
pub fn answered_names_came_to_it()
    ensures { AnsweredNamesCameToIt }
{}

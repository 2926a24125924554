//! Laws of the whole machine beside a world at the events of clients.

ghost use Rattle.headline.specs.ClientsEvents.{CallsKeepWorldsWhole, ClientFileStepsKeepWorldsWhole, ClientsEventsKeepWorldsWhole, EventsAreOfOneKind, IdleStepsKeepWorldsWhole, NameStepsKeepWorldsWhole};

/// Each event is a server's, a client's or the master's.
pub fn events_are_of_one_kind()
    ensures { EventsAreOfOneKind }
{}

/// A step of a client for its open call on a file keeps a machine beside the world, where it goes on, is answered, or stops: if what may be numbered is for open calls, and a refusal for length is so.
pub fn client_file_steps_keep_worlds_whole()
    ensures { ClientFileStepsKeepWorldsWhole }
{}

/// So does a message or a tick that a client gets that has no call, or that is down, if what may be numbered is for open calls.
pub fn idle_steps_keep_worlds_whole()
    ensures { IdleStepsKeepWorldsWhole }
{}

/// So does one that a client gets that waits for the answer to its name call, if what may be numbered is for open calls.
pub fn name_steps_keep_worlds_whole()
    ensures { NameStepsKeepWorldsWhole }
{}

/// So does a call as it is made, of names or on a file, if what may be numbered is for open calls.
pub fn calls_keep_worlds_whole()
    ensures { CallsKeepWorldsWhole }
{}

/// So does each event of a client, if what may be numbered is for open calls, and a refusal for length is so.
pub fn clients_events_keep_worlds_whole()
    ensures { ClientsEventsKeepWorldsWhole }
{}

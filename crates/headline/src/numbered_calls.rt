//! Laws of the calls for which mutations are numbered.

ghost use Rattle.headline.specs.NumberedCalls.{NumberedMutationsAreForOpenCalls, RequestsStayOfCalls, EventsKeepRequestsNumbered};

/// Under settings in their ranges each mutation that a server may number is for its client's open call at the machine.
pub fn numbered_mutations_are_for_open_calls()
    ensures { NumberedMutationsAreForOpenCalls }
{}

/// What clients asked for stays of their calls at the machine, event by event.
pub fn requests_stay_of_calls()
    ensures { RequestsStayOfCalls }
{}

/// At each event requests stay of calls, and tries numbered, where the machine places only what is numbered.
pub fn events_keep_requests_numbered()
    ensures { EventsKeepRequestsNumbered }
{}

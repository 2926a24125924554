//! The law of clients' requests on names, in each reached world.

ghost use Rattle.laws_base.specs.NameCalls.{NameRequestsAskForTheirCall};

/// A request on names under the number of its client's open call asks for that call, by no later deadline.
pub fn name_requests_ask_for_their_call()
    ensures { NameRequestsAskForTheirCall }
{}

//! Laws of the messages on names, in each reached world.

ghost use Rattle.laws_names.specs.NameWords.{NameAnswersWereAskedFor, NameRequestsAreOfClients, SnapshotsWaitForTheirRequest};

/// Each answer to a name call that was sent is under the number of a request that its receiver sent.
pub fn name_answers_were_asked_for()
    ensures { NameAnswersWereAskedFor }
{}

/// Each request on names that was sent is a client's.
pub fn name_requests_are_of_clients()
    ensures { NameRequestsAreOfClients }
{}

/// Each snapshot that waits has the client, the number and the deadline of a request that was sent.
pub fn snapshots_wait_for_their_request()
    ensures { SnapshotsWaitForTheirRequest }
{}

//! Laws of a request on names, as the master takes it.

ghost use Rattle.laws_names.specs.NameRequests.{LooksAreFollowed, NameRequestsAreFollowed};

/// The machine follows a Name that the master takes, where one that may take effect is of its client's open call, and what the master answers is an outcome of the call.
pub fn name_requests_are_followed()
    ensures { NameRequestsAreFollowed }
{}

/// The machine follows a Look that the master takes, and what the master tells is an outcome of the call.
pub fn looks_are_followed()
    ensures { LooksAreFollowed }
{}

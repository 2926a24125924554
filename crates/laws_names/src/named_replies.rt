//! A law of a step of the master in each reached world.

ghost use Rattle.laws_names.specs.NamedReplies.{NamedRepliesWereAskedFor};

/// What a step answers of name calls is under the number of the request that came, or of a snapshot that waited, and goes to the client that asked.
pub fn named_replies_were_asked_for()
    ensures { NamedRepliesWereAskedFor }
{}

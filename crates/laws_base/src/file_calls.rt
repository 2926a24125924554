//! Laws of a client's steps, by what its open call is of.

ghost use Rattle.laws_base.specs.FileCalls.{FileCallsBegin, FileCallsGoOn, NameCallsAskAgain, NameCallsAskFirst};

/// A call on a file opens no descriptor, asks for no name, and waits for no request on names.
pub fn file_calls_leave_names()
    ensures begins { FileCallsBegin }
    ensures goes { FileCallsGoOn }
{}

/// What a client asks of names is its open call, under that call's number.
pub fn name_calls_ask_for_themselves()
    ensures first { NameCallsAskFirst }
    ensures again { NameCallsAskAgain }
{}

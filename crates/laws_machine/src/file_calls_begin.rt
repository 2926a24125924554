//! Laws of calls on files as they begin, at the whole machine.

ghost use Rattle.laws_machine.specs.FileCallsBegin.{FileCallsAreBegun};

/// A call on a file begins at the machine where the client makes it; one that asks nobody is answered at once.
pub fn file_calls_are_begun()
    ensures { FileCallsAreBegun }
{}

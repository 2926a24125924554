//! Laws of the successes for which clients wait, at the whole machine.

ghost use Rattle.laws_machine.specs.WaitedSuccesses.{WaitedSuccessesAreSettled};

/// A success that a client waits for is a settled entry of its open call, in the file's chunk.
pub fn waited_successes_are_settled()
    ensures { WaitedSuccessesAreSettled }
{}

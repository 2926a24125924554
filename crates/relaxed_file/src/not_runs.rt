//! Traces that are not runs of the machine: without these nobody knows that its definitions are strong enough.

ghost use Rattle.relaxed_file.specs.NotRuns.{NoAnswerWithoutCall, NoSharedOffset, NoStaleRead};

/// No client is answered a call that it did not make.
pub fn no_answer_without_call()
    ensures { NoAnswerWithoutCall }
{}

/// In no run are two records that a client appended by one descriptor, each answered at once, answered places that overlap.
pub fn no_shared_offset()
    ensures { NoSharedOffset }
{}

/// In no run does a client that appended bytes read nothing where they stand, by a read that comes next, each answered at once.
pub fn no_stale_read()
    ensures { NoStaleRead }
{}

//! What a step of a node gives, what is seen of it, and why the node goes down.

ghost use Rattle.std.specs.Prelude.{◌≡◌, [], Some, None, false};
ghost use Rattle.protocol.specs.Seen.{no_output, down_output};

use crate::down_cause::DownCause;
use crate::seen::SeenList;
use gfs_types::lists::Sequence;
use messages::event::StepOut;
use std::alloc::Global;

/// What a step gives, and what an observer sees of it.
#[derive(Drop)]
pub struct Outcome {
    pub out: StepOut,
    pub seen: SeenList,
    /// Why the node goes down; none where it doesn't.
    pub cause: Option<DownCause>,
}

impl Outcome {
    /// A step that gives nothing. Takes no memory.
    pub fn nothing(alloc: Global) -> Outcome
        ensures out { result.out ≡ no_output }
        ensures seen { result.seen ≡ [] }
        ensures cause { result.cause ≡ None }
    {
        Outcome {
            out: no_output(alloc),
            seen: Sequence::empty(alloc),
            cause: None,
        }
    }

    /// A step that puts the node down for a cause, of which this was seen. Takes no memory.
    pub fn down(alloc: Global, cause: DownCause, seen: SeenList) -> Outcome
        ensures out { result.out ≡ down_output }
        ensures seen { result.seen ≡ seen }
        ensures cause { result.cause ≡ Some cause }
    {
        Outcome {
            out: down_output(alloc),
            seen,
            cause: Some(cause),
        }
    }

    /// One that puts it down for a cause. Takes no memory.
    pub fn down_for(alloc: Global, cause: DownCause) -> Outcome
        ensures out { result.out ≡ down_output }
        ensures seen { result.seen ≡ [] }
        ensures cause { result.cause ≡ Some cause }
    {
        Outcome::down(alloc, cause, Sequence::empty(alloc))
    }
}

/// Nothing is given. Takes no memory.
pub fn no_output(alloc: Global) -> StepOut
    ensures { result ≡ no_output }
{
    StepOut {
        sent: Sequence::empty(alloc),
        answer: None,
        down: false,
    }
}

/// The node goes down. Takes no memory.
pub fn down_output(alloc: Global) -> StepOut
    ensures { result ≡ down_output }
{
    StepOut {
        sent: Sequence::empty(alloc),
        answer: None,
        down: true,
    }
}

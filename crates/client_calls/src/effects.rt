//! What a step gives where nothing hinders it.

ghost use Rattle.std.specs.Prelude.{◌≡◌, false};
ghost use Rattle.std.specs.Option.{option_to_list};

use crate::sent::Sent;
use gfs_types::answer::Answer;
use messages::event::StepOut;

/// The message and the answer of a step.
#[derive(Drop)]
pub struct ClientEffects {
    pub sent: Sent,
    pub answer: Option<Answer>,
}

impl ClientEffects {
    /// The output of the step.
    pub fn into_out(self) -> StepOut
        ensures { result ≡ record { sent = option_to_list self.sent; answer = self.answer; down = false } }
    {
        StepOut {
            sent: self.sent.into_list(),
            answer: self.answer,
            down: false,
        }
    }
}

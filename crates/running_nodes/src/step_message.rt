//! What a step is given.

ghost use Rattle.std.specs.Prelude.{◌≡◌};
ghost use Rattle.std.specs.Option.{option_copied};
ghost use Rattle.server_cell.specs.Inputs.{input_of};

use messages::event::NodeInput;
use messages::message::Message;

/// The message that a step is taken on; none at a tick.
pub(crate) fn message_in(input: &NodeInput) -> Option<&Message>
    ensures { input_of (option_copied result) ≡ input.now }
{
    match input {
        NodeInput::Deliver(message) => Some(message),
        NodeInput::Tick => None,
    }
}

//! The messages of one step.

use messages::message_lists::MessageList;

/// The messages of one step, with the number of the first one.
#[derive(Drop)]
pub struct Batch {
    pub first: u64,
    pub messages: MessageList,
}

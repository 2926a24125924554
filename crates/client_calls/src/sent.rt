//! The message of a step.

ghost use Rattle.std.specs.Prelude.{◌≡◌, Some, None, IfOk};
ghost use Rattle.std.specs.Option.{option_to_list};

use gfs_types::no_memory::NoMemory;
use messages::message::Message;
use messages::message_lists::MessageList;
use std::alloc::Global;
use std::marker::Model;

/// The message that a step sends, if any, in the list that it is sent in.
#[derive(Drop)]
pub struct Sent {
    messages: MessageList,
}

impl Model for Sent {
    ghost use Rattle.std.specs.Prelude.{◌≡◌, Option};
    ghost use Rattle.std.specs.Option.{option_to_list};
    ghost use Rattle.protocol.specs.Tables.{first_of_list};
    ghost use Rattle.messages.specs.declared.message.Message.{Message as MessageValue};

    ghost Value = { Option MessageValue };

    ghost view = { λ s. first_of_list s.messages };

    ghost invariant = { λ s. option_to_list (first_of_list s.messages) ≡ s.messages };
}

impl Sent {
    /// No message. Takes no memory.
    pub fn none(alloc: Global) -> Sent
        ensures { result ≡ None }
    {
        Sent {
            messages: MessageList::empty(alloc),
        }
    }

    /// This message.
    pub fn one(alloc: Global, message: Message) -> Result<Sent, NoMemory>
        ensures { IfOk result (λ s. s ≡ Some message) }
    {
        let mut messages = MessageList::empty(alloc);
        messages.push(message)?;
        Ok(Sent { messages })
    }

    /// The list that is sent.
    pub fn into_list(self) -> MessageList
        ensures { result ≡ option_to_list self }
    {
        self.messages
    }
}

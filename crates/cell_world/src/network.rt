//! All messages that were sent since they were dropped last, by their numbers.

ghost use Rattle.std.specs.Prelude.{◌≡◌, ◌+◌, ◌-◌, ◌^◌, ◌<◌, ◌≤◌, [], ◌∷◌, ◌++◌, suc, length, slice_get, vec_len, vec_capacity, OnOk};
ghost use Rattle.std.specs.Option.{option_copied};
ghost use Rattle.protocol.specs.World.{numbered_from_1, stamped};
ghost use Rattle.cell_world.specs.Batches.{sent_in, message_named, AreNumbered, IsIn};

use crate::batch::Batch;
use gfs_types::no_memory::NoMemory;
use messages::message::Message;
use messages::message_lists::MessageList;
use std::alloc::Global;
use std::marker::Model;

// A step sends fewer messages than this, so that no number goes past its end.
const MOST_SENT: u64 = 9_223_372_036_854_775_808;

/// All messages in the order in which they were sent, with room that is made for a step.
#[derive(Drop)]
pub struct Network {
    batches: Vec<Batch>,
    count: u64,
}

impl Model for Network {
    ghost use Rattle.std.specs.Prelude.{◌≡◌, ◌-◌, length, vec_len, vec_capacity};
    ghost use Rattle.cell_world.specs.Batches.{SentMessages, sent_in, AreNumbered};

    ghost Value = { SentMessages };

    ghost view = { λ n. record { messages = sent_in n.batches.items; room = vec_capacity n.batches - vec_len n.batches } };

    ghost invariant = { λ n. (n.count ≡ length (sent_in n.batches.items)) × AreNumbered 0 n.batches.items };
}

impl Network {
    /// Takes no memory.
    pub fn new(alloc: Global) -> Network
        ensures { result.messages ≡ [] }
    {
        Network {
            batches: Vec::new(alloc),
            count: 0,
        }
    }

    /// All messages are dropped; the next one has the number 1.
    pub fn clear(&mut self)
        ensures { self.new.messages ≡ [] }
    {
        self.batches.clear();
        self.count = 0;
    }

    /// How many there are, which is the last one's number.
    pub fn count(&self) -> u64
        ensures { result ≡ length self.now.messages }
    {
        self.count
    }

    /// Room for the messages of a step is made. At an error the messages are the same.
    pub fn reserve(&mut self) -> Result<(), NoMemory>
        ensures messages { self.new.messages ≡ self.old.messages }
        ensures room { OnOk result (0 < self.new.room) }
        ensures count { OnOk result (length self.new.messages < 2 ^ 63) }
    {
        if self.count >= MOST_SENT {
            return Err(NoMemory);
        }
        self.batches.reserve(1)?;
        Ok(())
    }

    /// The messages of a step are sent; they take the next numbers. Takes no memory.
    pub fn send(&mut self, messages: MessageList)
        requires room { 0 < self.old.room }
        requires count { length self.old.messages < 2 ^ 63 }
        ensures { self.new.messages ≡ self.old.messages ++ stamped (suc (length self.old.messages)) messages }
    {
        let first = self.count + 1;
        let messages = stamp(first, messages);
        self.count += messages.len() as u64;
        push(&mut self.batches, Batch { first, messages });
    }

    /// The message of this number, if there is a number.
    pub fn named(&self, given: Option<u64>) -> Option<&Message>
        ensures { option_copied result ≡ message_named self.now.messages given }
    {
        self.get(given?)
    }

    /// The message of this number.
    pub fn get(&self, number: u64) -> Option<&Message>
        ensures { option_copied result ≡ numbered_from_1 self.now.messages number }
    {
        if number == 0 || number > self.count {
            return None;
        }
        let batch = &self.batches[place_of(&self.batches, number)];
        message_at(&batch.messages, (number - batch.first) as usize)
    }
}

fn message_at(messages: &MessageList, place: usize) -> Option<&Message>
    ensures { option_copied result ≡ slice_get messages.now place }
{
    messages.as_slice().get(place)
}

fn push(batches: &mut Vec<Batch>, batch: Batch)
    requires { 0 < vec_capacity batches.old - vec_len batches.old }
    ensures { batches.new.items ≡ batches.old.items ++ batch ∷ [] }
{
    let _ = batches.push(batch);
}

// The place of the batch with a number.
fn place_of(batches: &Vec<Batch>, number: u64) -> usize
    requires numbered { AreNumbered 0 batches.now.items }
    requires least { 0 < number }
    requires most { number ≤ length (sent_in batches.now.items) }
    ensures { IsIn batches.now.items number result }
{
    let mut low = 0;
    let mut high = batches.len();
    while high - low > 1 {
        let middle = low + (high - low) / 2;
        if batches[middle].first <= number {
            low = middle;
        } else {
            high = middle;
        }
    }
    low
}

fn stamp(first: u64, messages: MessageList) -> MessageList
    requires { first ≤ 2 ^ 63 }
    ensures { result ≡ stamped first messages }
{
    let mut all = messages.into_vec();
    stamp_each(first, &mut all);
    MessageList::new(all)
}

fn stamp_each(first: u64, messages: &mut Vec<Message>)
    requires { first ≤ 2 ^ 63 }
    ensures { messages.new.items ≡ stamped first messages.old.items }
{
    for place in 0..messages.len() {
        messages[place].number = first + place as u64;
    }
}

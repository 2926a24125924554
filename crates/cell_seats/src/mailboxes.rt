//! The nodes' mailboxes, and the network between them.

ghost use Rattle.std.specs.Prelude.{◌≡◌, None, IfOk, vec_len};
ghost use Rattle.cell_seats.specs.Networks.{is_due, outcome_of, network_after};

use crossbeam_channel::{Receiver, Sender, unbounded};
use gfs_types::ids::Node;
use gfs_types::no_memory::NoMemory;
use std::alloc::Global;
use std::sync::{Mutex, Wait};

/// What a node takes a step on. A message comes as its number.
#[derive(Clone, Copy, Debug, PartialEq, Eq)]
pub enum Input {
    Deliver(u64),
    Tick,
    Restart,
}

/// What lies in a mailbox.
#[derive(Clone, Copy, Debug, PartialEq, Eq)]
pub enum MailboxItem {
    Take(Input),
    /// The cell closes.
    Stop,
}

/// Which messages the network loses, else holds up, else repeats: each one of so many, and none where it is 0.
#[derive(Clone, Copy, Debug, PartialEq, Eq)]
pub struct Policy {
    pub drop_every: u64,
    pub repeat_every: u64,
    pub hold_every: u64,
}

impl Policy {
    /// No message is hindered.
    pub const NONE: Policy = Policy {
        drop_every: 0,
        repeat_every: 0,
        hold_every: 0,
    };
}

/// A message for a node, by its number.
#[derive(Clone, Copy)]
pub(crate) struct AddressedMessage {
    pub(crate) to: Node,
    pub(crate) number: u64,
}

/// The network: how many messages it was given, and the one that it holds up.
#[derive(Drop)]
pub(crate) struct NetworkState {
    pub(crate) count: u64,
    pub(crate) held: Option<AddressedMessage>,
}

/// What the network does with a message.
pub(crate) enum DeliveryOutcome {
    Lost,
    Once,
    Twice,
    /// It is held up, and the one that was held up before it, if there is one, goes on.
    Held(Option<AddressedMessage>),
}

impl NetworkState {
    fn new() -> NetworkState
        ensures { result ≡ record { count = 0; held = None } }
    {
        NetworkState {
            count: 0,
            held: None,
        }
    }

    /// What is done with the next message by this policy.
    fn outcome(&mut self, policy: Policy, message: AddressedMessage) -> DeliveryOutcome
        ensures outcome { result ≡ outcome_of policy self.old }
        ensures network { self.new ≡ network_after policy self.old message }
    {
        self.count = self.count.wrapping_add(1);
        if is_due(policy.drop_every, self.count) {
            return DeliveryOutcome::Lost;
        }
        if is_due(policy.hold_every, self.count) {
            let before = self.held;
            self.held = Some(message);
            return DeliveryOutcome::Held(before);
        }
        if is_due(policy.repeat_every, self.count) {
            return DeliveryOutcome::Twice;
        }
        DeliveryOutcome::Once
    }
}

// Whether the message of a number is one of each so many.
fn is_due(every: u64, number: u64) -> bool
    ensures { result ≡ is_due every number }
{
    every != 0 && number % every == 0
}

/// The sending ends of all mailboxes, and the network.
#[derive(Drop)]
pub struct MailboxSenders {
    master: Sender<MailboxItem>,
    servers: Vec<Sender<MailboxItem>>,
    clients: Vec<Sender<MailboxItem>>,
    network: Mutex<NetworkState>,
}

/// The receiving ends of all mailboxes, for the nodes.
#[derive(Drop)]
pub struct Mailboxes {
    pub master: Receiver<MailboxItem>,
    pub servers: Vec<Receiver<MailboxItem>>,
    pub clients: Vec<Receiver<MailboxItem>>,
}

type MailboxEnds = (Vec<Sender<MailboxItem>>, Vec<Receiver<MailboxItem>>);

fn make_boxes(alloc: Global, count: u64) -> Result<MailboxEnds, NoMemory>
    ensures { IfOk result (λ b. vec_len b.1 ≡ count) }
{
    let mut senders = Vec::new(alloc);
    let mut boxes = Vec::new(alloc);
    for _ in 0..count {
        let (sender, mailbox) = unbounded(alloc)?;
        senders.push(sender)?;
        boxes.push(mailbox)?;
    }
    Ok((senders, boxes))
}

impl MailboxSenders {
    /// The mailboxes of a master, so many servers and so many clients, and their sending ends.
    pub fn new(
        alloc: Global,
        servers: u16,
        clients: u64,
    ) -> Result<(MailboxSenders, Mailboxes), NoMemory>
        ensures servers { IfOk result (λ p. vec_len p.1.servers ≡ servers) }
        ensures clients { IfOk result (λ p. vec_len p.1.clients ≡ clients) }
    {
        let (master, masters) = unbounded(alloc)?;
        let (server_senders, servers) = make_boxes(alloc, u64::from(servers))?;
        let (client_senders, clients) = make_boxes(alloc, clients)?;
        let senders = MailboxSenders {
            master,
            servers: server_senders,
            clients: client_senders,
            network: Mutex::new(NetworkState::new()),
        };
        let boxes = Mailboxes {
            master: masters,
            servers,
            clients,
        };
        Ok((senders, boxes))
    }

    /// The network is given the message of a number. By its policy it may never come, or come twice, or late.
    pub fn deliver(&self, rt: &impl Wait, policy: Policy, to: Node, number: u64) {
        let message = AddressedMessage { to, number };
        let outcome = self.network.lock(rt).outcome(policy, message);
        let item = MailboxItem::Take(Input::Deliver(number));
        match outcome {
            DeliveryOutcome::Lost => {}
            DeliveryOutcome::Once => self.put(rt, to, item),
            DeliveryOutcome::Twice => {
                self.put(rt, to, item);
                self.put(rt, to, item);
            }
            DeliveryOutcome::Held(Some(before)) => {
                self.put(
                    rt,
                    before.to,
                    MailboxItem::Take(Input::Deliver(before.number)),
                )
            }
            DeliveryOutcome::Held(None) => {}
        }
    }

    /// Puts an item into a node's mailbox. It is lost where there is no memory for it, or no such mailbox.
    pub fn put(&self, rt: &impl Wait, to: Node, item: MailboxItem) {
        let sender = match to {
            Node::Master => Some(&self.master),
            Node::Server(id) => at(&self.servers, u64::from(id.0)),
            Node::Client(id) => at(&self.clients, id.0),
        };
        if let Some(sender) = sender {
            let _ = sender.send(rt, item);
        }
    }
}

// The sender of a number, from 1.
fn at(senders: &Vec<Sender<MailboxItem>>, number: u64) -> Option<&Sender<MailboxItem>> {
    senders.get((number as usize).checked_sub(1)?)
}

//! The places of the clients in the journal of a cell that goes on.

ghost use Rattle.std.specs.Prelude.{◌≡◌, ◌≤◌, ◌+◌, ◌<◌, [], false, vec_len, vec_capacity, IfOk, OnOk, OnErr, IfSome};
ghost use Rattle.gfs_types.specs.declared.ids.Node.TheVariants.{Client};
ghost use Rattle.cell_journal.specs.WholeHistories.{is_retired};
ghost use Rattle.cell_seats.specs.Registry.{IsRegistered};
ghost use Rattle.cell_seats.specs.Registries.{IsSameRegistry};
ghost use Rattle.running_nodes.specs.Places.{ArePlacesOf, IsPlaceOf};

use cell_seats::mailboxes::MailboxItem;
use cell_seats::node_journal::NodeJournal;
use cell_seats::node_registry::NodeRegistry;
use crossbeam_channel::Receiver;
use gfs_types::ids::{ClientId, Node};
use gfs_types::no_memory::NoMemory;
use std::sync::Wait;
use std::thread;
use std::time::{Clock, Duration};

/// A client's place in the journal, its mailbox, and its bit among those that are in a call.
#[derive(Drop)]
pub struct ClientPlace {
    pub journal: NodeJournal,
    pub inbox: Receiver<MailboxItem>,
    pub bit: u64,
}

/// The places of the first so many clients, but of those of which nothing more is written, and the mailboxes of the others.
pub fn client_places<R: Wait + Clock>(
    rt: &R,
    registry: &mut NodeRegistry,
    retired: &[bool; 64],
    count: u64,
    inboxes: Vec<Receiver<MailboxItem>>,
    room: Vec<Option<ClientPlace>>,
) -> (Vec<Option<ClientPlace>>, Vec<Receiver<MailboxItem>>)
    requires registered { registry.old.registered ≡ registry.old.servers + 1 }
    requires retired { registry.old.cell.retired ≡ retired.now }
    requires boxes { vec_len inboxes ≡ 64 }
    requires none { room.items ≡ [] }
    requires room { (count ≤ 64) × (64 ≤ vec_capacity room) }
    ensures same { IsSameRegistry registry.old registry.new }
    ensures registered { registry.new.registered ≡ registry.old.servers + 1 + count }
    ensures places { ArePlacesOf registry.old.cell result.0.items }
    ensures boxes { vec_len result.1 + count ≡ 64 }
{
    let mut places = room;
    let mut inboxes = inboxes;
    for before in 0..count {
        let inbox = next_inbox(&mut inboxes);
        places.push_reserved(client_place(rt, registry, retired, before, inbox));
    }
    (places, inboxes)
}

fn next_inbox(inboxes: &mut Vec<Receiver<MailboxItem>>) -> Receiver<MailboxItem>
    requires { 0 < vec_len inboxes.old }
    ensures { vec_len inboxes.new + 1 ≡ vec_len inboxes.old }
{
    match inboxes.pop() {
        Some(inbox) => inbox,
        None => unreachable!(),
    }
}

// The place of the next client, unless nothing more is written of it.
fn client_place<R: Wait + Clock>(
    rt: &R,
    registry: &mut NodeRegistry,
    retired: &[bool; 64],
    before: u64,
    inbox: Receiver<MailboxItem>,
) -> Option<ClientPlace>
    requires registered { registry.old.registered ≡ registry.old.servers + 1 + before }
    requires retired { registry.old.cell.retired ≡ retired.now }
    requires few { before < 64 }
    ensures same { IsSameRegistry registry.old registry.new }
    ensures registered { registry.new.registered ≡ registry.old.registered + 1 }
    ensures place { IfSome result (IsPlaceOf registry.old.cell) }
{
    let _servers = registry.servers;
    let is_retired = retired[before as usize];
    if is_retired {
        registry.skip();
        return None;
    }
    Some(ClientPlace {
        journal: journal_of(rt, registry, ClientId(before + 1)),
        inbox,
        bit: 1u64 << before,
    })
}

// A client's place. It is there at once, since what all share has few owners.
fn journal_of<R: Wait + Clock>(rt: &R, registry: &mut NodeRegistry, id: ClientId) -> NodeJournal
    requires next { (registry.old.registered ≡ registry.old.servers + id.0) × (0 < id.0) × (id.0 ≤ 64) }
    requires goes_on { is_retired registry.old.cell (Client id) ≡ false }
    ensures same { IsSameRegistry registry.old registry.new }
    ensures registered { registry.new.registered ≡ registry.old.registered + 1 }
    ensures journal { IsRegistered registry.old.config registry.old.servers (Client id) registry.old.writer.me.0 result.node result.writer.me.0 }
{
    for _ in rt.forever() {
        match client_journal(registry, id) {
            Ok(journal) => return journal,
            Err(_) => thread::sleep(rt, Duration::from_millis(1)),
        }
    }
    unreachable!()
}

/// The place of a client in the journal, of whose number none was registered yet.
pub fn client_journal(registry: &mut NodeRegistry, id: ClientId) -> Result<NodeJournal, NoMemory>
    requires next { (registry.old.registered ≡ registry.old.servers + id.0) × (0 < id.0) × (id.0 ≤ 64) }
    requires goes_on { is_retired registry.old.cell (Client id) ≡ false }
    ensures same { IsSameRegistry registry.old registry.new }
    ensures ok { OnOk result (registry.new.registered ≡ registry.old.registered + 1) }
    ensures err { OnErr result (registry.new.registered ≡ registry.old.registered) }
    ensures journal { IfOk result (λ d. IsRegistered registry.old.config registry.old.servers (Client id) registry.old.writer.me.0 d.node d.writer.me.0) }
{
    let _servers = registry.servers;
    registry.next(Node::Client(id))
}

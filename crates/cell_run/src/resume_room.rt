//! All memory that a parked cell takes to go on, beside its journal.

ghost use Rattle.std.specs.Prelude.{◌≡◌, ◌≤◌, ◌<◌, ◌+◌, [], length, vec_len, vec_capacity, IfOk};
ghost use Rattle.cell_seats.specs.Controls.{WritesControls};
ghost use Rattle.running_nodes.specs.ParkedSeats.{count_anew};
ghost use Rattle.cell_run.specs.Resumed.{HasRoom, IsRoomFor};
ghost use Rattle.running_nodes.specs.Places.{AreNewClients};

use crate::cell::Thread;
use crate::parked::ParkedParts;
use cell_journal::identity::CellIdentity;
use cell_nodes::keep::keep;
use cell_nodes::node_locks::{NodeLocks, new_locks};
use cell_seats::controls::{ControlWriter, Controls, new_controls};
use cell_seats::journal::Journal;
use cell_seats::mailboxes::{MailboxItem, MailboxSenders, Mailboxes};
use cell_seats::shared_state::MOST_CLIENTS;
use crossbeam_channel::Receiver;
use gfs_types::config::Config;
use gfs_types::ids::ClientId;
use gfs_types::no_memory::NoMemory;
use running_nodes::client_places::ClientPlace;
use running_nodes::running_client::{RunningClient, Seat};
use std::alloc::Global;

/// What is made for a cell before any part of the parked one is taken: its locks, in which no node lies yet, what its clients need, and room
/// for its base.
#[derive(Drop)]
pub struct ResumeRoom {
    pub control_writer: ControlWriter,
    pub locks: NodeLocks,
    pub clients: ClientRoom,
    pub base: Vec<Journal>,
}

/// What the clients of a cell that goes on need: those of new numbers, in rising order, their mailboxes, the first one's last, and room for their
/// places and for the seats.
#[derive(Drop)]
pub struct ClientRoom {
    pub anew: Vec<Option<RunningClient>>,
    pub inboxes: Vec<Receiver<MailboxItem>>,
    pub places: Vec<Option<ClientPlace>>,
    pub seats: Vec<Seat>,
}

/// What the threads of the nodes are made of.
#[derive(Drop)]
pub struct ThreadRoom {
    pub master: Option<Receiver<MailboxItem>>,
    /// The first one's last.
    pub servers: Vec<Receiver<MailboxItem>>,
    pub threads: Vec<Thread>,
}

/// All of it, and what all nodes are to share.
#[derive(Drop)]
pub struct ResumeMemory {
    pub senders: MailboxSenders,
    pub controls: Controls,
    pub room: ResumeRoom,
    pub threads: ThreadRoom,
}

/// The memory.
pub fn resume_memory(parts: &ParkedParts, cell: &CellIdentity) -> Result<ResumeMemory, NoMemory>
    requires { parts.now.made + count_anew parts.now.seats ≤ 64 }
    ensures asks { IfOk result (λ m. WritesControls m.controls m.room.control_writer) }
    ensures room { IfOk result (λ m. HasRoom cell.now parts.now m.room) }
{
    let alloc = parts.alloc;
    let config = parts.config;
    let count_of_servers = parts.servers;
    let made = parts.made;
    let seats = parts.seats.len();
    let anew = parts.count_anew();
    let (senders, boxes) = MailboxSenders::new(alloc, count_of_servers, MOST_CLIENTS)?;
    let Mailboxes {
        master,
        servers,
        clients,
    } = boxes;
    let threads = thread_room(alloc, count_of_servers, master, servers)?;
    let clients = client_room(alloc, config, made, anew, seats, clients)?;
    let locks = new_locks(alloc, count_of_servers, cell)?;
    let base = room_for_one(alloc)?;
    let (controls, control_writer) = new_controls(alloc)?;
    Ok(ResumeMemory {
        senders,
        controls,
        room: ResumeRoom {
            control_writer,
            locks,
            clients,
            base,
        },
        threads,
    })
}

fn thread_room(
    alloc: Global,
    count: u16,
    master: Receiver<MailboxItem>,
    servers: Vec<Receiver<MailboxItem>>,
) -> Result<ThreadRoom, NoMemory> {
    let mut servers = servers;
    servers.reverse();
    let mut threads = Vec::new(alloc);
    threads.reserve(usize::from(count) + 1)?;
    Ok(ThreadRoom {
        master: Some(master),
        servers,
        threads,
    })
}

fn room_for_one(alloc: Global) -> Result<Vec<Journal>, NoMemory>
    ensures { IfOk result (λ b. (b.items ≡ []) × (1 ≤ vec_capacity b)) }
{
    let mut base = Vec::new(alloc);
    base.reserve(1)?;
    Ok(base)
}

// What clients of so many new numbers, behind those that were made, and so many seats need.
fn client_room(
    alloc: Global,
    config: Config,
    made: u64,
    anew: u64,
    count: usize,
    inboxes: Vec<Receiver<MailboxItem>>,
) -> Result<ClientRoom, NoMemory>
    requires least { 0 < config.chunk }
    requires few { made + anew ≤ 64 }
    requires boxes { vec_len inboxes ≡ 64 }
    ensures room { IfOk result (λ r. IsRoomFor config made count r) }
    ensures count { IfOk result (λ r. length r.anew.items ≡ anew) }
{
    let mut inboxes = inboxes;
    inboxes.reverse();
    let anew = new_clients(alloc, config, made, anew)?;
    let mut places = Vec::new(alloc);
    places.reserve(64)?;
    let mut seats = Vec::new(alloc);
    seats.reserve(count)?;
    Ok(ClientRoom {
        anew,
        inboxes,
        places,
        seats,
    })
}

// So many clients of the numbers behind those that were made, in rising order.
fn new_clients(
    alloc: Global,
    config: Config,
    made: u64,
    anew: u64,
) -> Result<Vec<Option<RunningClient>>, NoMemory>
    requires least { 0 < config.chunk }
    requires few { made + anew ≤ 64 }
    ensures clients { IfOk result (λ c. AreNewClients config made c.items) }
    ensures count { IfOk result (λ c. length c.items ≡ anew) }
{
    let mut clients = Vec::new(alloc);
    for before in 0..anew {
        let client = RunningClient::new(alloc, config, ClientId(made + before + 1))?;
        keep(&mut clients, Some(client))?;
    }
    Ok(clients)
}

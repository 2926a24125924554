//! A chunkserver that is opened over a disk, which it hands back.

ghost use Rattle.std.specs.Prelude.{◌≡◌, IfSome};

use bytes::Bytes;
use disk::{FuseDisk, MemDisk, StopPlan};
use gfs_types::config::Config;
use gfs_types::ids::{ClientId, DataId, Handle, Moment, Node, OrderNo, ServerId, Version};
use gfs_types::lists::ServerList;
use gfs_types::refusal::Refusal;
use gfs_types::torn::Torn;
use messages::event::{NodeInput, StepOut};
use messages::message::{Body, Message, Target};
use protocol::down_cause::DownCause;
use server_cell::disk_server::Server;
use std::alloc::{AllocError, Global};
use store_disk::Layout;

const NOW: Moment = Moment(0);

const ID: ServerId = ServerId(1);

const CHUNK: Handle = Handle(7);

const DATA: DataId = DataId {
    client: ClientId(1),
    seq: 1,
};

type DiskServer = Server<FuseDisk>;

// Chunks of 64 bytes in blocks of 16, in four slots.
fn settings() -> Config
    ensures chunk { result.chunk ≡ 64 }
    ensures block { result.block ≡ 16 }
    ensures slots { result.slots ≡ 4 }
{
    Config {
        chunk: 64,
        block: 16,
        slots: 4,
        ..Config::default()
    }
}

/// A server over a new disk; none where it can't be up.
fn open_new(alloc: Global) -> Option<DiskServer>
    ensures { IfSome result (λ s. (s.state.disk.chunk ≡ 64) × (s.state.disk.block ≡ 16) × (s.state.disk.slots ≡ 4)) }
{
    let config = settings();
    if config.skew_ms > 60_000 {
        return None;
    }
    let layout = Layout::new(64, 16, 4);
    let Ok(disk) = MemDisk::new(alloc, layout.disk_size()) else {
        return None;
    };
    let disk = FuseDisk::new(disk);
    match Server::open(alloc, config, ID, disk, NOW) {
        Ok(server) => Some(server),
        Err(_) => None,
    }
}

/// The server over its disk once that has stopped.
fn open_again(alloc: Global, server: DiskServer, torn: Torn) -> Option<DiskServer>
    requires { (server.state.disk.chunk ≡ 64) × (server.state.disk.block ≡ 16) × (server.state.disk.slots ≡ 4) }
    ensures { IfSome result (λ s. (s.state.disk.chunk ≡ 64) × (s.state.disk.block ≡ 16) × (s.state.disk.slots ≡ 4)) }
{
    let config = settings();
    if config.skew_ms > 60_000 {
        return None;
    }
    let mut stops = StopPlan::new();
    stops.tear(torn);
    let disk = stops.restart(server.into_disk());
    match Server::open(alloc, config, ID, disk, NOW) {
        Ok(server) => Some(server),
        Err(_) => None,
    }
}

// An order of the master: a replica of a new chunk.
fn create() -> Message {
    Message {
        number: 1,
        sender: Node::Master,
        receiver: Node::Server(ID),
        body: Body::Create {
            order: OrderNo { epoch: 1, count: 1 },
            handle: CHUNK,
            version: Version(1),
        },
    }
}

// Whether it has a replica, takes the order, and has one then, which the master is told of.
fn creates(server: &mut DiskServer) -> bool
    requires { (server.old.state.disk.chunk ≡ 64) × (server.old.state.disk.block ≡ 16) × (server.old.state.disk.slots ≡ 4) }
    ensures { (server.new.state.disk.chunk ≡ 64) × (server.new.state.disk.block ≡ 16) × (server.new.state.disk.slots ≡ 4) }
{
    let had = server.row(CHUNK).is_some();
    let StepOut { sent, down, .. } = server.step(NOW, NodeInput::Deliver(create()));
    let told = sent.as_slice().len() == 1;
    !had && told && !down && server.is_up() && server.row(CHUNK).is_some()
}

// Whether the order was taken. The replica is there then once the server is opened again over its disk; one whose disk failed within the step is down, and has
// it or not. None where that isn't so.
fn stops_within(alloc: Global, calls: u64, torn: Torn) -> Option<bool> {
    let mut server = open_new(alloc)?;
    server.arm(calls);
    let has_created = creates(&mut server);
    let was_up = server.is_up();
    let again = open_again(alloc, server, torn)?;
    let has_replica = again.row(CHUNK).is_some();
    let is_up = again.is_up();
    drop(again);
    if is_up && (has_replica || !has_created) && was_up == has_created {
        Some(has_created)
    } else {
        None
    }
}

// Why it goes down where its disk passes no more calls.
fn cause_of_failing(alloc: Global) -> Option<DownCause> {
    let mut server = open_new(alloc)?;
    server.arm(0);
    let message = create();
    let outcome = server.take_step(NOW, Some(&message));
    drop(message);
    drop(server);
    outcome.cause
}

// And a server says that its disk failed.
#[test]
fn a_server_is_opened_over_the_disk_of_an_earlier_one(rt: HostRuntime) {
    let alloc = rt.alloc();
    for torn in [Torn::Old, Torn::New, Torn::Byte(1)] {
        assert!(rt; stops_within(alloc, 1_000, torn) == Some(true));
        for calls in 0..12 {
            assert!(rt; stops_within(alloc, calls, torn).is_some(), "call {calls}");
        }
    }
    assert!(rt; matches!(cause_of_failing(alloc), Some(DownCause::Device)));
}

// What the server is told in turn once it has the replica: its lease, 17 bytes of a client, and that they are a record to be appended.
fn told(alloc: Global, number: u64) -> Result<Message, AllocError> {
    let body = match number {
        0 => Body::Grant {
            order: OrderNo { epoch: 1, count: 2 },
            handle: CHUNK,
            version: Version(1),
            end: Moment(60_000),
            chunk: 64,
            members: ServerList::new(vec![in alloc; 1; 1]?),
        },
        1 => Body::Push {
            data: DATA,
            bytes: Bytes::from_static(b"0123456789abcdefg"),
            rest: ServerList::empty(alloc),
        },
        _ => Body::Mutate {
            data: DATA,
            handle: CHUNK,
            version: Version(1),
            target: Target::Append,
            deadline: Moment(1_000),
        },
    };
    let sender = if number == 0 {
        Node::Master
    } else {
        Node::Client(ClientId(1))
    };
    Ok(Message {
        number: 1,
        sender,
        receiver: Node::Server(ID),
        body,
    })
}

// What a step refuses a client.
fn refusal_in(out: &StepOut) -> Option<Refusal> {
    for message in out.sent.as_slice() {
        if let Body::Refused { refusal, .. } = &message.body {
            return Some(*refusal);
        }
    }
    None
}

// What the record is refused with.
fn refusal_of_record(alloc: Global) -> Option<Refusal> {
    let mut server = open_new(alloc)?;
    let has_created = creates(&mut server);
    let mut refusal = None;
    for number in 0..3 {
        if let Ok(message) = told(alloc, number) {
            let out = server.step(NOW, NodeInput::Deliver(message));
            refusal = refusal_in(&out);
            drop(out);
        }
    }
    drop(server);
    if has_created { refusal } else { None }
}

// It has a byte more than a quarter of the chunk.
#[test]
fn a_long_record_is_refused(rt: HostRuntime) {
    assert!(rt; refusal_of_record(rt.alloc()) == Some(Refusal::ServerTooLong));
}

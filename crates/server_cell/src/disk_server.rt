//! A chunkserver over a disk.

ghost use Rattle.std.specs.Prelude.{◌≡◌, ◌≤◌, ◌<◌, ◌%◌, List, [], true, length, IfErr, IfOk};
ghost use Rattle.std.specs.Option.{option_copied};
ghost use Rattle.gfs_types.specs.Settings.{largest_chunk};
ghost use Rattle.disk_redo.specs.GateMoments.{LeavesOnly};
ghost use Rattle.chunk_store.specs.Opening.{HoldsReplicas, IsOpening};
ghost use Rattle.disk_store.specs.Standing.{LeavesHolding};
ghost use Rattle.protocol.specs.Conforms.{ServerSteps, ServerRots};
ghost use Rattle.protocol.specs.Server.{started_server, stopped_server};
ghost use Rattle.protocol.specs.Tables.{moment_limit};
ghost use Rattle.protocol.specs.declared.seen.Seen.{Seen};
ghost use Rattle.replica_store.specs.Replicas.{ServerDisk, row_at};
ghost use Rattle.protocol.specs.Causes.{IsDownFor};
ghost use Rattle.server_cell.specs.Inputs.{input_of};
ghost use Rattle.server_cell.specs.Settings.{KeepsSettings};
ghost use Rattle.replica_store.specs.declared.fault.ReplicaStoreFault.TheVariants as faults;
ghost use Rattle.store_disk.specs.Formats.{IsHeadOf, is_head_open};
ghost use Rattle.store_disk.specs.Places.{disk_size};

use crate::server::Chunkserver;
use disk::Disk;
use disk_store::disk_store::DiskStore;
use gfs_types::config::Config;
use gfs_types::ids::{Handle, Moment, ServerId};
use messages::event::{NodeInput, StepOut};
use messages::message::Message;
use protocol::step_outcome::Outcome;
use replica_store::fault::ReplicaStoreFault;
use replica_store::row::Row;
use std::alloc::Global;
use std::marker::Model;
use store_disk::Layout;

/// What a server takes a step on.
pub type ServerIn = NodeInput;

// The message that a step is taken on; none at a tick.
fn message_in(input: &ServerIn) -> Option<&Message>
    ensures { input_of (option_copied result) ≡ input.now }
{
    match input {
        NodeInput::Deliver(message) => Some(message),
        NodeInput::Tick => None,
    }
}

/// A chunkserver over a disk of its own. It begins on what the disk holds, and hands the disk back as it ends.
#[derive(Drop)]
pub struct Server<D: Disk + Drop> {
    chunkserver: Chunkserver<DiskStore<D>>,
}

impl<D: Disk + Drop> Model for Server<D> {
    ghost use Rattle.std.specs.FinMap as map;
    ghost use Rattle.std.specs.Coded.{codes, coded_ℕ};
    ghost use Rattle.server_handlers.specs.Standing.{HeldServerState};

    ghost Value = { HeldServerState };

    ghost coded = { Prim.hlevel (codes, map.code, coded_ℕ) };

    ghost view = { λ s. s.chunkserver };
}

impl<D: Disk + Drop> Server<D> {
    /// A server on what a disk holds: on one that an earlier server left, wherever it stopped, or on a new one, which is formatted. An error
    /// hands the disk back, which holds what it held.
    pub fn open(
        alloc: Global,
        config: Config,
        id: ServerId,
        disk: D,
        now: Moment,
    ) -> Result<Server<D>, (D, ReplicaStoreFault)>
        requires least { 64 ≤ config.chunk }
        requires most { config.chunk ≤ largest_chunk }
        requires block { 16 ≤ config.block }
        requires whole { config.chunk % config.block ≡ 0 }
        requires slots { config.slots ≤ 65536 }
        requires skew { config.skew_ms ≤ 60000 }
        requires moment { now.0 ≤ moment_limit }
        requires holds { (d : ServerDisk) × HoldsReplicas config.chunk config.block config.slots (D.seen disk) d }
        ensures opened { (d : ServerDisk) → HoldsReplicas config.chunk config.block config.slots (D.seen disk) d → IfOk result (λ s. s.state ≡ started_server config id.0 d now.0) }
        ensures held { IfErr result (λ e. (d : ServerDisk) → HoldsReplicas config.chunk config.block config.slots (D.seen disk) d → HoldsReplicas config.chunk config.block config.slots (D.seen e.0) d) }
        // A stop at any moment of a call that fails leaves what one before it might have left, or what holds the same.
        ensures any_moment_of_error { IfErr result (λ e. LeavesOnly D.moment D.left_since disk e.0 (IsOpening config.chunk config.block config.slots (D.seen disk) (D.may_leave disk))) }
        ensures cause { IfErr result (λ e. e.1 ≡ faults.DiskFailed → D.failed disk < D.failed e.0) }
        // Damaged comes only where the disk is too small, or its open head is that of other sizes.
        ensures undamaged { disk_size config.chunk config.block config.slots ≤ length (D.seen disk)
            → (is_head_open (D.seen disk) ≡ true → IsHeadOf config.chunk config.block config.slots (D.seen disk)) → IfErr result (λ e. e.1 ≡ faults.Damaged → ⊥) }
    {
        let layout = Layout::new(config.chunk, config.block, config.slots);
        match DiskStore::open(alloc, disk, layout) {
            Ok(store) => Ok(Server {
                chunkserver: Chunkserver::new(alloc, config, id, store, now),
            }),
            Err(error) => Err(error),
        }
    }

    /// Whether it is up. One that is down takes no step.
    pub fn is_up(&self) -> bool
        ensures { result ≡ self.now.state.up }
    {
        self.chunkserver.is_up()
    }

    /// Its number.
    pub fn id(&self) -> ServerId
        ensures { result.0 ≡ self.now.state.id }
    {
        self.chunkserver.id()
    }

    /// What it knows of a replica.
    pub fn row(&self, handle: Handle) -> Option<Row>
        ensures { result ≡ row_at self.now.state.disk handle.0 }
    {
        self.chunkserver.row(handle)
    }

    /// It is put down in a step, before it changed anything. Takes no memory.
    pub fn stop(&mut self)
        requires { self.old.state.up ≡ true }
        ensures { self.new.state ≡ stopped_server self.old.state self.old.state.disk [] }
    {
        self.chunkserver.stop();
    }

    /// A byte of a replica becomes another on the disk, past its digest; nothing happens where there is no such replica. Where the
    /// change fails, it goes down.
    pub fn rot(&mut self, handle: Handle, place: u64, byte: u8)
        requires { self.old.state.up ≡ true }
        ensures { ServerRots self.old.state handle.0 place byte self.new.state }
    {
        self.chunkserver.rot(handle, place, byte);
    }

    /// A step on a message, or on a tick.
    #[tactic(auto, using(crate::proofs::DiskServers::steps_seen))]
    pub fn step(&mut self, now: Moment, input: ServerIn) -> StepOut
        requires { now.0 ≤ moment_limit }
        ensures steps { (seen : List Seen) × ServerSteps self.old.state now.0 input result seen self.new.state }
        ensures settings { KeepsSettings self.old.state self.new.state }
    {
        let message = message_in(&input);
        let Outcome {
            out,
            seen: _seen,
            cause: _,
        } = self.take_step(now, message);
        out
    }

    /// The same, with what is seen of it, and why the server goes down where it does: for its disk only where that has failed.
    pub fn take_step(&mut self, now: Moment, message: Option<&Message>) -> Outcome
        requires { now.0 ≤ moment_limit }
        ensures steps { ServerSteps self.old.state now.0 (input_of (option_copied message.entry)) result.out result.seen self.new.state }
        ensures settings { KeepsSettings self.old.state self.new.state }
        ensures cause { IsDownFor result.out.down result.cause self.old.failed self.new.failed }
    {
        self.chunkserver.step(now, message)
    }

    /// Its disk lets that many calls pass and fails each later one, where it can be told to fail.
    pub fn arm(&mut self, calls: u64)
        ensures { self.new ≡ self.old }
    {
        self.chunkserver.arm(calls);
    }

    /// The disk: whenever it stops, and is opened again, it holds what the server's had, with what is under way made or not.
    pub fn into_disk(self) -> D
        ensures left { LeavesHolding (D.may_leave result) self.state.disk self.state.under_way }
        ensures failed { D.failed result ≡ self.failed }
    {
        self.chunkserver.into_store().into_disk()
    }
}

//! The chunkserver.

ghost use Rattle.std.specs.Prelude.{◌≡◌, ◌≤◌, [], true};
ghost use Rattle.std.specs.Option.{option_copied};
ghost use Rattle.gfs_types.specs.Settings.{largest_chunk};
ghost use Rattle.protocol.specs.Conforms.{ServerSteps, ServerRestarts, ServerRots};
ghost use Rattle.protocol.specs.Server.{started_server, stopped_server};
ghost use Rattle.protocol.specs.Tables.{moment_limit};
ghost use Rattle.replica_store.specs.Replicas.{row_at};
ghost use Rattle.protocol.specs.Causes.{IsDownFor};
ghost use Rattle.server_cell.specs.Inputs.{input_of};
ghost use Rattle.server_cell.specs.Settings.{KeepsSettings};

use crate::ended::{cause_since, ends};
use crate::planned::plan_step;
use crate::rotten::rots;
use gfs_types::config::Config;
use gfs_types::ids::{Handle, Moment, ServerId};
use messages::event::StepOut;
use messages::message::Message;
use protocol::step_outcome::{Outcome, down_output, no_output};
use replica_store::armed_store::ArmedStore;
use replica_store::reopened_store::ReopenedStore;
use replica_store::row::Row;
use replica_store::store::ReplicaStore;
use server_handlers::server::Server;
use std::alloc::Global;
use std::marker::Model;

/// A chunkserver over a store of its replicas. While it is up, nothing is under way on its disk.
#[derive(Drop)]
pub struct Chunkserver<S: ReplicaStore> {
    server: Server<S>,
}

impl<S: ReplicaStore> Model for Chunkserver<S> {
    ghost use Rattle.std.specs.Prelude.{◌≡◌, true, []};
    ghost use Rattle.std.specs.FinMap as map;
    ghost use Rattle.std.specs.Coded.{codes, coded_ℕ};
    ghost use Rattle.server_handlers.specs.Standing.{HeldServerState};

    ghost Value = { HeldServerState };

    ghost coded = { Prim.hlevel (codes, map.code, coded_ℕ) };

    ghost view = { λ c. c.server };

    ghost invariant = { λ c. c.server.state.up ≡ true → c.server.state.under_way ≡ [] };
}

impl<S: ReplicaStore> Chunkserver<S> {
    /// One that starts at a moment on a store, with nothing under way. The settings are within their ranges. Takes no memory.
    pub fn new(alloc: Global, config: Config, id: ServerId, store: S, now: Moment) -> Chunkserver<S>
        requires least { 64 ≤ config.chunk }
        requires most { config.chunk ≤ largest_chunk }
        requires skew { config.skew_ms ≤ 60000 }
        requires moment { now.0 ≤ moment_limit }
        requires nothing { S.under_way store ≡ [] }
        ensures state { result.state ≡ started_server config id.0 (S.disk store) now.0 }
        ensures failed { result.failed ≡ S.failed store }
    {
        Chunkserver {
            server: Server::new(alloc, config, id, store, now),
        }
    }

    /// Whether it is up. One that is down takes no step.
    pub fn is_up(&self) -> bool
        ensures { result ≡ self.now.state.up }
    {
        self.server.is_up()
    }

    /// Its number.
    pub fn id(&self) -> ServerId
        ensures { result.0 ≡ self.now.state.id }
    {
        self.server.id()
    }

    /// What it knows of a replica.
    pub fn row(&self, handle: Handle) -> Option<Row>
        ensures { result ≡ row_at self.now.state.disk handle.0 }
    {
        self.server.row(handle)
    }

    /// It is put down in a step, before it changed anything. Takes no memory.
    pub fn stop(&mut self)
        requires { self.old.state.up ≡ true }
        ensures { self.new.state ≡ stopped_server self.old.state self.old.state.disk [] }
    {
        self.server.stop();
    }

    /// A byte of a replica becomes another on the disk, past its digest; nothing happens where there is no such replica. Where the
    /// change fails, it goes down.
    pub fn rot(&mut self, handle: Handle, place: u64, byte: u8)
        requires { self.old.state.up ≡ true }
        ensures { ServerRots self.old.state handle.0 place byte self.new.state }
    {
        match self.server.row(handle) {
            None => {}
            Some(_) => rots(&mut self.server, handle, place, byte),
        }
    }

    /// A step on a message, or on a tick. Where the server goes down in it, it says why.
    pub fn step(&mut self, now: Moment, message: Option<&Message>) -> Outcome
        requires { now.0 ≤ moment_limit }
        ensures steps { ServerSteps self.old.state now.0 (input_of (option_copied message.entry)) result.out result.seen self.new.state }
        ensures settings { KeepsSettings self.old.state self.new.state }
        ensures cause { IsDownFor result.out.down result.cause self.old.failed self.new.failed }
    {
        let alloc = self.server.alloc();
        if !self.server.is_up() {
            return Outcome::nothing(alloc);
        }
        let before = self.server.failures();
        match plan_step(&mut self.server, now, message) {
            Ok(effects) => ends(&mut self.server, effects, before),
            Err(_) => {
                self.server.stop();
                Outcome::down_for(alloc, cause_since(&self.server, before))
            }
        }
    }

    /// Its store, as it is.
    pub fn into_store(self) -> S
        ensures disk { S.disk result ≡ self.state.disk }
        ensures under_way { S.under_way result ≡ self.state.under_way }
        ensures failed { S.failed result ≡ self.failed }
    {
        self.server.into_store()
    }
}

impl<S: ReopenedStore> Chunkserver<S> {
    /// It begins again, whether it was up or down.
    pub fn restart(&mut self, now: Moment) -> StepOut
        requires { now.0 ≤ moment_limit }
        ensures { ServerRestarts self.old.state now.0 result self.new.state }
    {
        let alloc = self.server.alloc();
        match self.server.reopen() {
            Ok(()) => {
                self.server.start(now);
                no_output(alloc)
            }
            Err(_) => {
                self.server.stop();
                down_output(alloc)
            }
        }
    }
}

impl<S: ArmedStore> Chunkserver<S> {
    /// Its disk lets that many calls pass and fails each later one, where it can be told to fail.
    pub fn arm(&mut self, calls: u64)
        ensures { self.new ≡ self.old }
    {
        self.server.arm(calls);
    }
}

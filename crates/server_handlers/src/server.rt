//! The chunkserver, and what all handlers share.

ghost use Rattle.std.specs.Prelude.{◌≡◌, ◌≤◌, [], true, Some, OnOk, IfOk};
ghost use Rattle.std.specs.Option.{option_copied, option_map};
ghost use Rattle.std.specs.FinMap as map;
ghost use Rattle.gfs_types.specs.Settings.{largest_chunk};
ghost use Rattle.data_push.specs.Buffers.{data_of};
ghost use Rattle.leases.specs.LeaseHeld.{counts_at};
ghost use Rattle.primary_order.specs.SerialOrder.{SerialOrder, order_of};
ghost use Rattle.replica_store.specs.Replicas.{row_at, is_writable_at};
ghost use Rattle.protocol.specs.Tables.{moment_limit};
ghost use Rattle.protocol.specs.Server.{chunk_limit, sends, refuses, drops_corrupt, primary_of, frame};
ghost use Rattle.protocol.specs.ServerStep.{server_at};
ghost use Rattle.protocol.specs.ServerWrites.{refuses_attempt, answers_settled};
ghost use Rattle.server_handlers.specs.Doing.{doing, held_at};

use crate::effects::ServerEffects;
use crate::held_leases::Leases;
use crate::pushed::Pushed;
use bytes::Bytes;
use gfs_types::config::Config;
use gfs_types::ids::{DataId, Handle, Moment, Node, ServerId, Version};
use gfs_types::refusal::Refusal;
use messages::message::{Body, Message};
use ordered_map::number_map::NumberMap;
use primary_order::primary::Primary;
use replica_store::change::StoreChange;
use replica_store::fault::ReplicaStoreFault;
use replica_store::row::Row;
use replica_store::store::ReplicaStore;
use std::alloc::Global;
use std::marker::Model;

/// A chunkserver (section 2.3).
pub struct Server<S: ReplicaStore> {
    pub(crate) config: Config,
    pub(crate) id: ServerId,
    pub(crate) up: bool,
    pub(crate) clock: u64,
    pub(crate) store: S,
    pub(crate) leases: Leases,
    pub(crate) pushed: Pushed,
    pub(crate) clones: NumberMap<u64>,
    pub(crate) alloc: Global,
}

// Stands here, once, so that no crate above proves the drops of all that a server owns.
impl<S: ReplicaStore + Drop> Drop for Server<S> {
    fn drop(self) {
        let Self {
            config: _,
            id: _,
            up: _,
            clock: _,
            store: _store,
            leases: _leases,
            pushed: _pushed,
            clones: _clones,
            alloc: _,
        } = self;
    }
}

impl<S: ReplicaStore> Model for Server<S> {
    ghost use Rattle.std.specs.Prelude.{◌≡◌, ◌≤◌, max};
    ghost use Rattle.std.specs.FinMap as map;
    ghost use Rattle.std.specs.Coded.{codes, coded_ℕ};
    ghost use Rattle.protocol.specs.Tables.{moment_limit};
    ghost use Rattle.gfs_types.specs.Settings.{largest_chunk};
    ghost use Rattle.server_handlers.specs.Standing.{HeldServerState};

    ghost Value = { HeldServerState };

    ghost coded = { Prim.hlevel (codes, map.code, coded_ℕ) };

    ghost view = { λ s. record {
      state = record {
        config = s.config;
        id = s.id.0;
        up = s.up;
        now = s.clock;
        disk = S.disk s.store;
        under_way = S.under_way s.store;
        leases = s.leases.orders;
        pushed = s.pushed;
        clones = s.clones;
      };
      failed = S.failed s.store;
    } };

    ghost invariant = { λ s. (64 ≤ s.config.chunk) × (s.config.chunk ≤ largest_chunk) × (s.config.skew_ms ≤ 60000) × (s.clock ≤ moment_limit) × (s.pushed.limit ≡ max 1 s.config.push_entries) × (s.leases.skew ≡ s.config.skew_ms) × (s.leases.latest ≤ s.clock) };
}

impl<S: ReplicaStore> Server<S> {
    /// Whether it is up.
    pub fn is_up(&self) -> bool
        ensures { result ≡ self.now.state.up }
    {
        self.up
    }

    /// Its number.
    pub fn id(&self) -> ServerId
        ensures { result.0 ≡ self.now.state.id }
    {
        self.id
    }

    /// How far a chunk of a size that was told may go: a replica has room for one of the settings' chunks.
    pub fn chunk_limit(&self, told: u32) -> u64
        ensures size { result ≡ chunk_limit self.now.state told }
        ensures bound { result ≤ largest_chunk }
    {
        u64::from(told.min(self.config.chunk))
    }

    /// How far a chunk goes, by the size that came with the lease of it.
    pub fn leased_limit(&self, handle: Handle) -> u64
        ensures size { (p : SerialOrder) → held_at self.now.state handle.0 ≡ Some p → result ≡ chunk_limit self.now.state p.chunk }
        ensures bound { result ≤ largest_chunk }
    {
        match self.leases.get(handle) {
            None => 0,
            Some(primary) => self.chunk_limit(primary.chunk()),
        }
    }

    /// The greatest moment that it was given.
    pub fn clock(&self) -> Moment
        ensures { result.0 ≡ self.now.state.now }
    {
        Moment(self.clock)
    }

    pub fn alloc(&self) -> Global {
        self.alloc
    }

    /// Its store, as it is.
    pub fn into_store(self) -> S
        ensures disk { S.disk result ≡ self.state.disk }
        ensures under_way { S.under_way result ≡ self.state.under_way }
        ensures failed { S.failed result ≡ self.failed }
    {
        let Server {
            config: _,
            id: _,
            up: _,
            clock: _,
            store,
            leases: _leases,
            pushed: _pushed,
            clones: _clones,
            alloc: _,
        } = self;
        store
    }

    /// How often its store's disk has failed.
    pub fn failures(&self) -> u64
        ensures { result ≡ self.now.failed }
    {
        self.store.failures()
    }

    /// What it knows of a replica.
    pub fn row(&self, handle: Handle) -> Option<Row>
        ensures { result ≡ row_at self.now.state.disk handle.0 }
    {
        self.store.row(handle)
    }

    /// The data that were pushed under an id.
    pub fn data(&self, id: DataId) -> Option<&Bytes>
        ensures { option_copied result ≡ data_of self.now.state.pushed id }
    {
        self.pushed.get(id)
    }

    /// The lease of a chunk.
    pub fn lease(&self, handle: Handle) -> Option<&Primary>
        ensures { option_map order_of (option_copied result) ≡ map.get self.now.state.leases handle.0 }
    {
        self.leases.get(handle)
    }

    /// Whether a range of a replica can be written over.
    pub fn is_writable(
        &mut self,
        handle: Handle,
        offset: u64,
        end: u64,
    ) -> Result<bool, ReplicaStoreFault>
        requires { self.old.state.under_way ≡ [] }
        ensures value { IfOk result (λ b. b ≡ is_writable_at self.old.state.disk handle.0 offset end) }
        ensures same { self.new.state ≡ self.old.state }
    {
        self.store.is_writable(handle, offset, end)
    }

    /// Goes on to a moment.
    pub fn move_clock(&mut self, now: Moment)
        requires { now.0 ≤ moment_limit }
        ensures { self.new.state ≡ server_at self.old.state now.0 }
    {
        self.clock = self.clock.max(now.0);
    }

    /// A message is sent.
    pub fn send(
        &self,
        effects: &mut ServerEffects,
        receiver: Node,
        body: Body,
    ) -> Result<(), ReplicaStoreFault>
        ensures { OnOk result (sends (doing self.now.state effects.old) receiver body ≡ doing self.now.state effects.new) }
    {
        effects.send(Message {
            number: 0,
            sender: Node::Server(self.id),
            receiver,
            body,
        })
    }

    /// A refusal is sent.
    pub fn refuses(
        &self,
        effects: &mut ServerEffects,
        receiver: Node,
        number: u64,
        refusal: Refusal,
    ) -> Result<(), ReplicaStoreFault>
        ensures { OnOk result (refuses (doing self.now.state effects.old) receiver number refusal ≡ doing self.now.state effects.new) }
    {
        self.send(effects, receiver, Body::Refused { number, refusal })
    }

    /// The client of an attempt is refused.
    pub fn refuses_attempt(
        &self,
        effects: &mut ServerEffects,
        id: DataId,
        refusal: Refusal,
    ) -> Result<(), ReplicaStoreFault>
        ensures { OnOk result (refuses_attempt (doing self.now.state effects.old) id refusal ≡ doing self.now.state effects.new) }
    {
        self.refuses(effects, Node::Client(id.client), id.seq, refusal)
    }

    /// The client of a settled attempt is answered: its place, or that the chunk is full now.
    pub fn answers_settled(
        &self,
        effects: &mut ServerEffects,
        id: DataId,
        place: Option<u64>,
    ) -> Result<(), ReplicaStoreFault>
        ensures { OnOk result (answers_settled (doing self.now.state effects.old) id place ≡ doing self.now.state effects.new) }
    {
        match place {
            None => self.refuses_attempt(effects, id, Refusal::ChunkFull),
            Some(place) => {
                let body = Body::Done { data: id, place };
                self.send(effects, Node::Client(id.client), body)
            }
        }
    }

    /// A replica that doesn't match its checksums is dropped, and with it the lease.
    pub fn drops_corrupt(
        &mut self,
        effects: &mut ServerEffects,
        handle: Handle,
    ) -> Result<(), ReplicaStoreFault>
        ensures goes { OnOk result (drops_corrupt (doing self.old.state effects.old) handle.0 ≡ doing self.new.state effects.new) }
        ensures frame { frame self.new.state ≡ frame self.old.state }
    {
        self.leases.end(handle);
        effects.change(StoreChange::Remove(handle))
    }

    /// The lease of a chunk, where it is of that version and counts now.
    pub fn primary_of(&self, handle: Handle, version: Version) -> Option<&Primary>
        ensures primary { option_map order_of (option_copied result) ≡ primary_of self.now.state handle.0 version.0 }
        ensures counts { (p : SerialOrder) → option_map order_of (option_copied result) ≡ Some p → (held_at self.now.state handle.0 ≡ Some p) × (counts_at self.now.state.config.skew_ms p.held self.now.state.now ≡ true) }
    {
        self.leases.counting(handle, version, Moment(self.clock))
    }
}

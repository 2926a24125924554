//! How a server begins, makes the changes of its disk, stops, and begins again (section 2.6.2).

ghost use Rattle.std.specs.Prelude.{◌≡◌, ◌≤◌, [], ◌∷◌, OnOk, OnErr};
ghost use Rattle.gfs_types.specs.Settings.{largest_chunk};
ghost use Rattle.replica_store.specs.Replicas.{disk_changed, disk_changed_by_all};
ghost use Rattle.replica_store.specs.declared.change.StoreChange.TheVariants.{Rot};
ghost use Rattle.replica_store.specs.Stores.{IsFound, MadePart};
ghost use Rattle.protocol.specs.Tables.{moment_limit};
ghost use Rattle.protocol.specs.Server.{started_server, stopped_server};

use crate::held_leases::Leases;
use crate::pushed::Pushed;
use crate::server::Server;
use gfs_types::config::Config;
use gfs_types::ids::{Handle, Moment, ServerId};
use ordered_map::number_map::NumberMap;
use replica_store::armed_store::ArmedStore;
use replica_store::change::{ChangeList, StoreChange};
use replica_store::fault::ReplicaStoreFault;
use replica_store::reopened_store::ReopenedStore;
use replica_store::store::{ReplicaStore, commit_all};
use std::alloc::Global;

impl<S: ReplicaStore> Server<S> {
    /// One that starts at a moment on a store, with nothing under way. The settings are within their ranges. Takes no memory.
    pub fn new(alloc: Global, config: Config, id: ServerId, store: S, now: Moment) -> Server<S>
        requires least { 64 ≤ config.chunk }
        requires most { config.chunk ≤ largest_chunk }
        requires skew { config.skew_ms ≤ 60000 }
        requires moment { now.0 ≤ moment_limit }
        requires nothing { S.under_way store ≡ [] }
        ensures state { result.state ≡ started_server config id.0 (S.disk store) now.0 }
        ensures failed { result.failed ≡ S.failed store }
    {
        Server {
            config,
            id,
            up: true,
            clock: now.0,
            store,
            leases: Leases::new(alloc, config.skew_ms),
            pushed: Pushed::new(config.push_entries),
            clones: NumberMap::new(alloc),
            alloc,
        }
    }

    /// It begins again, and knows what is on its disk alone.
    pub fn start(&mut self, now: Moment)
        requires moment { now.0 ≤ moment_limit }
        requires nothing { self.old.state.under_way ≡ [] }
        ensures { self.new.state ≡ started_server self.old.state.config self.old.state.id self.old.state.disk now.0 }
    {
        self.forget(now.0);
        self.up = true;
    }

    /// It stops, and keeps its disk alone, with what is under way there.
    pub fn stop(&mut self)
        ensures { self.new.state ≡ stopped_server self.old.state self.old.state.disk self.old.state.under_way }
    {
        self.forget(0);
        self.up = false;
    }

    // Its clock goes back with what it knows, since leases remember moments.
    fn forget(&mut self, now: u64)
        requires { now ≤ moment_limit }
        ensures { self.new.state ≡ record (started_server self.old.state.config self.old.state.id self.old.state.disk now) { up = self.old.state.up; under_way = self.old.state.under_way } }
    {
        self.clock = now;
        self.leases = Leases::new(self.alloc, self.config.skew_ms);
        self.pushed = Pushed::new(self.config.push_entries);
        self.clones = NumberMap::new(self.alloc);
    }

    /// The changes of its disk are made in their order. At an error some were made, from the first on, and the next one is under way.
    pub fn commit(&mut self, changes: ChangeList) -> Result<(), ReplicaStoreFault>
        requires { self.old.state.under_way ≡ [] }
        ensures ok { OnOk result (self.new.state ≡ record self.old.state { disk = disk_changed_by_all self.old.state.disk changes }) }
        ensures err { OnErr result (MadePart self.old.state.disk changes self.new.state.disk self.new.state.under_way) }
        ensures config { self.new.state.config ≡ self.old.state.config }
        ensures id { self.new.state.id ≡ self.old.state.id }
    {
        commit_all(&mut self.store, changes)
    }

    /// A byte of a replica becomes another on the disk, past its digest. After an error that is under way.
    pub fn rot(&mut self, handle: Handle, place: u64, byte: u8) -> Result<(), ReplicaStoreFault>
        requires { self.old.state.under_way ≡ [] }
        ensures ok { OnOk result (self.new.state ≡ record self.old.state { disk = disk_changed self.old.state.disk (Rot handle place byte) }) }
        ensures err { OnErr result (self.new.state ≡ record self.old.state { under_way = Rot handle place byte ∷ [] }) }
    {
        let change = StoreChange::Rot {
            handle,
            place,
            byte,
        };
        match self.store.commit(change) {
            Ok(()) => Ok(()),
            Err(fault) => Err(fault),
        }
    }
}

impl<S: ReopenedStore> Server<S> {
    /// The disk is opened again, and what was under way is found made or not. An error leaves all as it was.
    pub fn reopen(&mut self) -> Result<(), ReplicaStoreFault>
        ensures found { OnOk result (IsFound self.old.state.disk self.old.state.under_way self.new.state.disk) }
        ensures nothing { OnOk result (self.new.state.under_way ≡ []) }
        ensures err { OnErr result (self.new.state ≡ self.old.state) }
        ensures config { self.new.state.config ≡ self.old.state.config }
        ensures id { self.new.state.id ≡ self.old.state.id }
    {
        self.store.reopen()
    }
}

impl<S: ArmedStore> Server<S> {
    /// Its store's disk lets that many calls pass and fails each later one, where it can be told to fail.
    pub fn arm(&mut self, calls: u64)
        ensures { self.new ≡ self.old }
    {
        self.store.arm(calls);
    }
}

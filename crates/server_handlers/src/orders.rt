//! The master's orders, as a server takes them (sections 2.3, 3.1, 3.4, 4.3 and 4.5).

ghost use Rattle.std.specs.Prelude.{◌≡◌, [], if◌then◌else◌, length, OnOk, IfOk};
ghost use Rattle.std.specs.FinMap as map;
ghost use Rattle.replica_store.specs.declared.change.StoreChange.TheVariants.{SetOrder};
ghost use Rattle.replica_store.specs.Replicas.{is_new_order};
ghost use Rattle.protocol.specs.Server.{frame, server_begins, stores, without_lease};
ghost use Rattle.protocol.specs.ServerOrders.{on_order, records, can_take, takes_create, takes_set_version, takes_grant, takes_extend, takes_revoke, takes_drop, takes_clone, takes_image, takes_copy_local};
ghost use Rattle.server_handlers.specs.Doing.{doing, is_held_at};

use crate::effects::ServerEffects;
use crate::server::Server;
use bytes::Bytes;
use gfs_types::ids::{Handle, Moment, Node, OrderNo, Serial, ServerId, Version};
use gfs_types::lists::ServerList;
use messages::message::Body;
use replica_store::change::StoreChange;
use replica_store::fault::ReplicaStoreFault;
use replica_store::store::ReplicaStore;

impl<S: ReplicaStore> Server<S> {
    /// Whether an order is taken: only where its number is greater than the last one's; that number is on the disk first.
    pub fn begins_order(
        &self,
        effects: &mut ServerEffects,
        order: OrderNo,
    ) -> Result<bool, ReplicaStoreFault>
        ensures new { IfOk result (λ b. b ≡ is_new_order self.now.state.disk order.epoch order.count) }
        ensures goes { IfOk result (λ b. doing self.now.state effects.new ≡ (if b then stores (doing self.now.state effects.old) (SetOrder order) else doing self.now.state effects.old)) }
    {
        let last = self.store.order();
        let is_new = last.epoch < order.epoch
            || (last.epoch == order.epoch && last.count < order.count);
        if is_new {
            effects.change(StoreChange::SetOrder(order))?;
        }
        Ok(is_new)
    }

    fn records(
        &self,
        effects: &mut ServerEffects,
        handle: Handle,
        version: Version,
    ) -> Result<(), ReplicaStoreFault>
        ensures { OnOk result (records (doing self.now.state effects.old) handle.0 version.0 ≡ doing self.now.state effects.new) }
    {
        self.send(effects, Node::Master, Body::Recorded { handle, version })
    }

    // Whether one more replica, under this handle, can be taken.
    fn can_take(&self, handle: Handle) -> bool
        ensures { result ≡ can_take (server_begins self.now.state) handle.0 }
    {
        self.store.row(handle).is_none() && !self.store.is_full(self.config.slots)
    }

    /// Create: an empty replica.
    pub fn takes_create(
        &self,
        effects: &mut ServerEffects,
        handle: Handle,
        version: Version,
    ) -> Result<(), ReplicaStoreFault>
        ensures { OnOk result (takes_create (doing self.now.state effects.old) handle.0 version.0 ≡ doing self.now.state effects.new) }
    {
        if !self.can_take(handle) {
            return Ok(());
        }
        effects.change(StoreChange::Put {
            handle,
            version,
            serial: Serial(0),
            bytes: Bytes::new(),
        })?;
        self.records(effects, handle, version)
    }

    /// SetVersion: a replica of exactly the base gets the version; a lease that it had under the base is over.
    pub fn takes_set_version(
        &mut self,
        effects: &mut ServerEffects,
        handle: Handle,
        version: Version,
        base: Version,
    ) -> Result<(), ReplicaStoreFault>
        ensures goes { OnOk result (takes_set_version (doing self.old.state effects.old) handle.0 version.0 base.0 ≡ doing self.new.state effects.new) }
        ensures frame { frame self.new.state ≡ frame self.old.state }
    {
        let Some(row) = self.store.row(handle) else {
            return Ok(());
        };
        if row.version != base {
            return Ok(());
        }
        self.leases.end(handle);
        effects.change(StoreChange::Raise { handle, version })?;
        self.records(effects, handle, version)
    }

    /// Grant: the lease begins, with serials from 1 and the size of the chunk.
    pub fn takes_grant(
        &mut self,
        effects: &mut ServerEffects,
        handle: Handle,
        version: Version,
        end: Moment,
        chunk: u32,
        members: &ServerList,
    ) -> Result<(), ReplicaStoreFault>
        ensures goes { OnOk result (takes_grant (doing self.old.state effects.old) handle.0 version.0 end.0 chunk members.now ≡ doing self.new.state effects.new) }
        ensures frame { frame self.new.state ≡ frame self.old.state }
    {
        let Some(row) = self.store.row(handle) else {
            return Ok(());
        };
        if row.version != version {
            return Ok(());
        }
        let members = members.copy(self.alloc)?;
        self.leases
            .begin(self.alloc, handle, version, end, chunk, members)?;
        Ok(())
    }

    /// Extend, which has no number.
    pub fn takes_extend(
        &mut self,
        effects: &ServerEffects,
        handle: Handle,
        version: Version,
        end: Moment,
    )
        ensures goes { takes_extend (doing self.old.state effects.now) handle.0 version.0 end.0 ≡ doing self.new.state effects.now }
        ensures frame { frame self.new.state ≡ frame self.old.state }
    {
        let Some(primary) = self.leases.get(handle) else {
            return;
        };
        if primary.held().version() == version {
            self.leases.extend(handle, end, Moment(self.clock));
        }
    }

    /// Revoke: a server without that lease answers the same.
    pub fn takes_revoke(
        &mut self,
        effects: &mut ServerEffects,
        handle: Handle,
        version: Version,
    ) -> Result<(), ReplicaStoreFault>
        ensures goes { OnOk result (takes_revoke (doing self.old.state effects.old) handle.0 version.0 ≡ doing self.new.state effects.new) }
        ensures frame { frame self.new.state ≡ frame self.old.state }
    {
        if self.holds(handle, version) {
            self.leases.end(handle);
        }
        self.send(effects, Node::Master, Body::Revoked { handle, version })
    }

    fn holds(&self, handle: Handle, version: Version) -> bool
        ensures { result ≡ is_held_at version.0 (map.get self.now.state.leases handle.0) }
    {
        match self.leases.get(handle) {
            None => false,
            Some(primary) => primary.held().version() == version,
        }
    }

    /// Drop: nothing newer than the version goes.
    pub fn takes_drop(
        &mut self,
        effects: &mut ServerEffects,
        handle: Handle,
        version: Version,
    ) -> Result<(), ReplicaStoreFault>
        ensures goes { OnOk result (takes_drop (doing self.old.state effects.old) handle.0 version.0 ≡ doing self.new.state effects.new) }
        ensures frame { frame self.new.state ≡ frame self.old.state }
    {
        let Some(row) = self.store.row(handle) else {
            return Ok(());
        };
        if row.version > version {
            return Ok(());
        }
        self.leases.end(handle);
        effects.change(StoreChange::Remove(handle))
    }

    /// Clone: the source is asked for its bytes.
    pub fn takes_clone(
        &mut self,
        effects: &mut ServerEffects,
        handle: Handle,
        version: Version,
        source: ServerId,
    ) -> Result<(), ReplicaStoreFault>
        ensures goes { OnOk result (takes_clone (doing self.old.state effects.old) handle.0 version.0 source.0 ≡ doing self.new.state effects.new) }
        ensures frame { frame self.new.state ≡ frame self.old.state }
    {
        self.clones.insert(handle.0, version.0)?;
        self.send(
            effects,
            Node::Server(source),
            Body::CopyAsk { handle, version },
        )
    }

    /// Image: it is installed only while its Clone order is the pending one, and at that exact version.
    pub fn takes_image(
        &mut self,
        effects: &mut ServerEffects,
        handle: Handle,
        version: Version,
        serial: Serial,
        bytes: &Bytes,
    ) -> Result<(), ReplicaStoreFault>
        ensures goes { OnOk result (takes_image (doing self.old.state effects.old) handle.0 version.0 serial.0 bytes.now ≡ doing self.new.state effects.new) }
        ensures frame { frame self.new.state ≡ frame self.old.state }
    {
        let is_pending = match self.clones.get(handle.0) {
            None => false,
            Some(ordered) => *ordered == version.0,
        };
        let fits = bytes.len() as u64 <= u64::from(self.config.chunk);
        if !(is_pending && fits && self.can_take(handle)) {
            return Ok(());
        }
        effects.change(StoreChange::Put {
            handle,
            version,
            serial,
            bytes: bytes.clone()?,
        })?;
        self.clones.remove(handle.0);
        self.send(effects, Node::Master, Body::Cloned { handle, version })
    }

    /// CopyLocal: a replica of a shared chunk is copied on the same disk, under a new handle.
    pub fn takes_copy_local(
        &mut self,
        effects: &mut ServerEffects,
        handle: Handle,
        version: Version,
        copy: Handle,
        copy_version: Version,
    ) -> Result<(), ReplicaStoreFault>
        requires { self.old.state.under_way ≡ [] }
        ensures goes { OnOk result (takes_copy_local (doing self.old.state effects.old) handle.0 version.0 copy.0 copy_version.0 ≡ doing self.new.state effects.new) }
        ensures frame { frame self.new.state ≡ frame self.old.state }
    {
        let Some(row) = self.store.row(handle) else {
            return Ok(());
        };
        if row.version != version {
            return Ok(());
        }
        if !self.store.is_copyable(handle)? {
            return self.drops_corrupt(effects, handle);
        }
        if !self.can_take(copy) {
            return Ok(());
        }
        effects.change(StoreChange::Copy {
            handle,
            copy,
            version: copy_version,
        })?;
        self.records(effects, copy, copy_version)
    }
}

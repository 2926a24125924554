//! How a primary numbers and forwards mutations, and settles them (sections 3.1 and 3.3).

ghost use Rattle.std.specs.Prelude.{◌≡◌, ◌<◌, Some, OnOk};
ghost use Rattle.primary_order.specs.SerialOrder.{SerialOrder};
ghost use Rattle.gfs_types.specs.Counters.{counter_limit};
ghost use Rattle.protocol.specs.Server.{frame};
ghost use Rattle.protocol.specs.ServerWrites.{denies, forwards, acknowledges, takes_acked, takes_nacked};
ghost use Rattle.server_handlers.specs.Doing.{doing, OnCounting, OnNew, held_at, numbers};

use crate::effects::ServerEffects;
use crate::server::Server;
use gfs_types::ids::{DataId, Handle, Moment, Node, Serial, ServerId, Version};
use gfs_types::lists::ServerList;
use gfs_types::mutation::Mutation;
use gfs_types::refusal::Refusal;
use messages::message::{Body, Change};
use primary_order::answer::Settled;
use protocol::seen::Seen;
use replica_store::fault::ReplicaStoreFault;
use replica_store::store::ReplicaStore;

/// What goes to each other member.
#[derive(Clone, Copy)]
pub struct Forwarded {
    pub handle: Handle,
    pub version: Version,
    pub serial: Serial,
    pub id: DataId,
    /// Bytes of the chunk, at most.
    pub chunk: u32,
    pub change: Change,
}

impl<S: ReplicaStore> Server<S> {
    /// A new attempt is refused, which is kept; its data are used up.
    pub fn denies(
        &mut self,
        effects: &mut ServerEffects,
        id: DataId,
        handle: Handle,
        refusal: Refusal,
    ) -> Result<(), ReplicaStoreFault>
        ensures goes { OnOk result (OnNew self.old.state handle.0 id (λ p. denies (doing self.old.state effects.old) handle.0 p id refusal ≡ doing self.new.state effects.new)) }
        ensures frame { frame self.new.state ≡ frame self.old.state }
    {
        self.leases.deny(handle, id, refusal)?;
        self.pushed.take(id);
        self.refuses_attempt(effects, id, refusal)
    }

    /// The primary gives a mutation its serial, and its data are used up.
    pub fn numbers(
        &mut self,
        effects: &mut ServerEffects,
        id: DataId,
        handle: Handle,
        mutation: Mutation,
    ) -> Result<(), ReplicaStoreFault>
        requires { (p : SerialOrder) → held_at self.old.state handle.0 ≡ Some p → p.serial < counter_limit }
        ensures goes { OnOk result (OnNew self.old.state handle.0 id (λ p. numbers (doing self.old.state effects.old) handle.0 p id mutation ≡ doing self.new.state effects.new)) }
        ensures frame { frame self.new.state ≡ frame self.old.state }
    {
        let Some(primary) = self.leases.get(handle) else {
            return Ok(());
        };
        let version = primary.held().version();
        let now = Moment(self.clock);
        let Some(serial) = self.leases.accept(self.alloc, handle, id, &mutation, now)? else {
            return Ok(());
        };
        self.pushed.take(id);
        effects.show(Seen::Numbered {
            handle,
            version,
            serial,
            data: id,
            mutation,
        })
    }

    /// A mutation goes to each of these.
    pub fn forwards(
        &self,
        effects: &mut ServerEffects,
        members: &ServerList,
        forwarded: Forwarded,
    ) -> Result<(), ReplicaStoreFault>
        ensures { OnOk result (forwards (doing self.now.state effects.old) members.now forwarded.handle.0 forwarded.version.0 forwarded.serial.0 forwarded.id forwarded.chunk forwarded.change ≡ doing self.now.state effects.new) }
    {
        let Forwarded {
            handle,
            version,
            serial,
            id,
            chunk,
            change,
        } = forwarded;
        for member in members.as_slice() {
            let body = Body::Forward {
                handle,
                version,
                serial,
                data: id,
                chunk,
                change,
            };
            self.send(effects, Node::Server(ServerId(*member)), body)?;
        }
        Ok(())
    }

    /// A member acknowledged: where it was the last one, the mutation is settled and its client is answered.
    pub fn acknowledges(
        &mut self,
        effects: &mut ServerEffects,
        handle: Handle,
        server: ServerId,
        serial: Serial,
    ) -> Result<(), ReplicaStoreFault>
        ensures goes { OnOk result (OnCounting self.old.state handle.0 (λ p. acknowledges (doing self.old.state effects.old) handle.0 p server.0 serial.0 ≡ doing self.new.state effects.new)) }
        ensures frame { frame self.new.state ≡ frame self.old.state }
    {
        let Some(primary) = self.leases.get(handle) else {
            return Ok(());
        };
        let version = primary.held().version();
        let now = Moment(self.clock);
        let Some(settled) = self.leases.acknowledge(handle, server, serial, now) else {
            return Ok(());
        };
        effects.show(Seen::BecameSettled {
            handle,
            version,
            serial,
        })?;
        let Settled { client, seq, place } = settled;
        self.answers_settled(effects, DataId { client, seq }, place)
    }

    /// An Acked; it counts only while the lease does.
    pub fn takes_acked(
        &mut self,
        effects: &mut ServerEffects,
        server: ServerId,
        handle: Handle,
        version: Version,
        serial: Serial,
    ) -> Result<(), ReplicaStoreFault>
        ensures goes { OnOk result (takes_acked (doing self.old.state effects.old) server.0 handle.0 version.0 serial.0 ≡ doing self.new.state effects.new) }
        ensures frame { frame self.new.state ≡ frame self.old.state }
    {
        let Some(_) = self.primary_of(handle, version) else {
            return Ok(());
        };
        self.acknowledges(effects, handle, server, serial)
    }

    /// A Nacked: the member's refusal is handed to the client that waits, while the lease counts.
    pub fn takes_nacked(
        &mut self,
        effects: &mut ServerEffects,
        handle: Handle,
        version: Version,
        serial: Serial,
        refusal: Refusal,
    ) -> Result<(), ReplicaStoreFault>
        ensures goes { OnOk result (takes_nacked (doing self.old.state effects.old) handle.0 version.0 serial.0 refusal ≡ doing self.new.state effects.new) }
        ensures frame { frame self.new.state ≡ frame self.old.state }
    {
        let Some(_) = self.primary_of(handle, version) else {
            return Ok(());
        };
        match self.leases.refuse(handle, serial, refusal) {
            None => Ok(()),
            Some(id) => self.refuses_attempt(effects, id, refusal),
        }
    }
}

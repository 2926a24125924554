//! How a server answers reads (sections 2.7.1 and 4.5).

ghost use Rattle.std.specs.Prelude.{◌≡◌, [], OnOk};
ghost use Rattle.protocol.specs.Server.{frame};
ghost use Rattle.protocol.specs.ServerReads.{takes_read, takes_len, takes_copy_ask};
ghost use Rattle.server_handlers.specs.Doing.{doing};

use crate::effects::ServerEffects;
use crate::server::Server;
use gfs_types::ids::{Handle, Node, Version};
use gfs_types::refusal::Refusal;
use messages::message::Body;
use replica_store::fault::ReplicaStoreFault;
use replica_store::store::ReplicaStore;

/// What is read of a replica, and for whom.
#[derive(Clone, Copy)]
pub struct Asking {
    pub client: Node,
    pub number: u64,
    pub handle: Handle,
    pub version: Version,
}

impl<S: ReplicaStore> Server<S> {
    /// A Read.
    pub fn takes_read(
        &mut self,
        effects: &mut ServerEffects,
        asking: Asking,
        offset: u64,
        count: u64,
    ) -> Result<(), ReplicaStoreFault>
        requires { self.old.state.under_way ≡ [] }
        ensures goes { OnOk result (takes_read (doing self.old.state effects.old) asking.client asking.number asking.handle.0 asking.version.0 offset count ≡ doing self.new.state effects.new) }
        ensures frame { frame self.new.state ≡ frame self.old.state }
    {
        let Asking {
            client,
            number,
            handle,
            version,
        } = asking;
        let Some(row) = self.store.row(handle) else {
            return self.refuses(effects, client, number, Refusal::NoChunk);
        };
        if row.version != version {
            return self.refuses(effects, client, number, Refusal::Version);
        }
        let Some(bytes) = self.store.read(self.alloc, handle, offset, count)? else {
            self.drops_corrupt(effects, handle)?;
            return self.refuses(effects, client, number, Refusal::Corrupt);
        };
        self.send(effects, client, Body::Bytes { number, bytes })
    }

    /// A Len.
    pub fn takes_len(
        &self,
        effects: &mut ServerEffects,
        asking: Asking,
    ) -> Result<(), ReplicaStoreFault>
        ensures { OnOk result (takes_len (doing self.now.state effects.old) asking.client asking.number asking.handle.0 asking.version.0 ≡ doing self.now.state effects.new) }
    {
        let Asking {
            client,
            number,
            handle,
            version,
        } = asking;
        let Some(row) = self.store.row(handle) else {
            return self.refuses(effects, client, number, Refusal::NoChunk);
        };
        if row.version != version {
            return self.refuses(effects, client, number, Refusal::Version);
        }
        let count = row.count;
        self.send(effects, client, Body::LenIs { number, count })
    }

    /// A CopyAsk: another server is to have a replica (section 4.3).
    pub fn takes_copy_ask(
        &mut self,
        effects: &mut ServerEffects,
        target: Node,
        handle: Handle,
        version: Version,
    ) -> Result<(), ReplicaStoreFault>
        requires { self.old.state.under_way ≡ [] }
        ensures goes { OnOk result (takes_copy_ask (doing self.old.state effects.old) target handle.0 version.0 ≡ doing self.new.state effects.new) }
        ensures frame { frame self.new.state ≡ frame self.old.state }
    {
        let Some(row) = self.store.row(handle) else {
            return Ok(());
        };
        if row.version != version {
            return Ok(());
        }
        let Some(bytes) = self.store.read(self.alloc, handle, 0, row.count)? else {
            return self.drops_corrupt(effects, handle);
        };
        let body = Body::Image {
            handle,
            version: row.version,
            serial: row.serial,
            bytes,
        };
        self.send(effects, target, body)
    }
}

//! What a server does at a tick (sections 2.6.2 and 3.1).

ghost use Rattle.std.specs.Prelude.{◌≡◌, OnOk};
ghost use Rattle.protocol.specs.Server.{frame};
ghost use Rattle.protocol.specs.ServerStep.{server_ticks};
ghost use Rattle.server_handlers.specs.Doing.{doing};

use crate::effects::ServerEffects;
use crate::server::Server;
use gfs_types::ids::{Moment, Node};
use messages::message::Body;
use replica_store::fault::ReplicaStoreFault;
use replica_store::store::ReplicaStore;

impl<S: ReplicaStore> Server<S> {
    /// A tick: leases that no longer count are forgotten, and the replicas and leases are reported to the master.
    pub fn ticks(&mut self, effects: &mut ServerEffects) -> Result<(), ReplicaStoreFault>
        ensures goes { OnOk result (server_ticks (doing self.old.state effects.old) ≡ doing self.new.state effects.new) }
        ensures frame { frame self.new.state ≡ frame self.old.state }
    {
        let now = Moment(self.clock);
        let leases = self.leases.report(self.alloc, now)?;
        let replicas = self.store.list(self.alloc)?;
        self.send(effects, Node::Master, Body::Report { replicas, leases })
    }
}

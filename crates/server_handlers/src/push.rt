//! How data go from server to server, each passing them on (section 3.2).

ghost use Rattle.std.specs.Prelude.{◌≡◌, map, OnOk, IfOk};
ghost use Rattle.protocol.specs.PushBuffer.{next_hop, hops_after};
ghost use Rattle.protocol.specs.Sending.{server_id};
ghost use Rattle.protocol.specs.Server.{frame};
ghost use Rattle.protocol.specs.ServerWrites.{takes_push, passes_on};
ghost use Rattle.server_handlers.specs.Doing.{doing};

use crate::effects::ServerEffects;
use crate::server::Server;
use bytes::Bytes;
use data_push::next_hop;
use gfs_types::ids::{DataId, Node, ServerId};
use gfs_types::lists::ServerList;
use gfs_types::no_memory::NoMemory;
use messages::message::Body;
use replica_store::fault::ReplicaStoreFault;
use replica_store::store::ReplicaStore;
use std::alloc::Global;

impl<S: ReplicaStore> Server<S> {
    /// A Push: the data are kept and go to the next server; the last one answers.
    pub fn takes_push(
        &mut self,
        effects: &mut ServerEffects,
        id: DataId,
        bytes: &Bytes,
        rest: &ServerList,
    ) -> Result<(), ReplicaStoreFault>
        ensures goes { OnOk result (takes_push (doing self.old.state effects.old) id bytes.now rest.now ≡ doing self.new.state effects.new) }
        ensures frame { frame self.new.state ≡ frame self.old.state }
    {
        let kept = bytes.clone()?;
        self.pushed.put(self.alloc, id, kept)?;
        self.passes_on(effects, id, bytes, rest)
    }

    fn passes_on(
        &self,
        effects: &mut ServerEffects,
        id: DataId,
        bytes: &Bytes,
        rest: &ServerList,
    ) -> Result<(), ReplicaStoreFault>
        ensures { OnOk result (passes_on (doing self.now.state effects.old) id bytes.now rest.now (next_hop rest.now self.now.state.id) ≡ doing self.now.state effects.new) }
    {
        match hop_after(self.alloc, rest, self.id)? {
            None => self.send(effects, Node::Client(id.client), Body::Pushed { data: id }),
            Some(next) => {
                let body = Body::Push {
                    data: id,
                    bytes: bytes.clone()?,
                    rest: hops_after(self.alloc, rest, next)?,
                };
                self.send(effects, Node::Server(next), body)
            }
        }
    }
}

// The lowest listed server above this one.
fn hop_after(
    alloc: Global,
    servers: &ServerList,
    me: ServerId,
) -> Result<Option<ServerId>, NoMemory>
    ensures { IfOk result (λ hop. hop ≡ next_hop servers.now me.0) }
{
    let ids = server_ids(alloc, servers.as_slice())?;
    Ok(next_hop(ids.as_slice(), me))
}

fn server_ids(alloc: Global, servers: &[u16]) -> Result<Vec<ServerId>, NoMemory>
    ensures { IfOk result (λ ids. ids.items ≡ map server_id servers.now) }
{
    let mut ids = Vec::new(alloc);
    for server in servers {
        ids.push(ServerId(*server))?;
    }
    Ok(ids)
}

// Those that come after that one.
fn hops_after(alloc: Global, servers: &ServerList, next: ServerId) -> Result<ServerList, NoMemory>
    ensures { IfOk result (λ l. l ≡ hops_after servers.now next.0) }
{
    let mut after = Vec::new(alloc);
    for server in servers.as_slice() {
        if next.0 < *server {
            after.push(*server)?;
        }
    }
    Ok(ServerList::new(after))
}

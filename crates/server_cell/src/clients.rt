//! Messages that come from clients, and pushed data.

ghost use Rattle.std.specs.Prelude.{◌≡◌, true, [], OnOk};
ghost use Rattle.protocol.specs.Server.{frame};
ghost use Rattle.protocol.specs.ServerStep.{server_takes};
ghost use Rattle.server_handlers.specs.Doing.{doing};
ghost use Rattle.server_cell.specs.Kinds.{is_of_clients};

use crate::server_writes::takes_mutate;
use messages::message::{Body, Message};
use replica_store::fault::ReplicaStoreFault;
use replica_store::store::ReplicaStore;
use server_handlers::effects::ServerEffects;
use server_handlers::reads::Asking;
use server_handlers::server::Server;

pub(crate) fn takes_of_clients<S: ReplicaStore>(
    server: &mut Server<S>,
    effects: &mut ServerEffects,
    message: &Message,
) -> Result<(), ReplicaStoreFault>
    requires nothing { server.old.state.under_way ≡ [] }
    requires kind { is_of_clients message.now.body ≡ true }
    ensures goes { OnOk result (server_takes (doing server.old.state effects.old) message.now message.now.body ≡ doing server.new.state effects.new) }
    ensures frame { frame server.new.state ≡ frame server.old.state }
{
    match &message.body {
        Body::Push { data, bytes, rest } => server.takes_push(effects, *data, bytes, rest),
        Body::Mutate {
            data,
            handle,
            version,
            target,
            deadline,
        } => takes_mutate(
            server, effects, *data, *handle, *version, *target, *deadline,
        ),
        Body::Read {
            number,
            handle,
            version,
            offset,
            count,
        } => {
            let asking = Asking {
                client: message.sender,
                number: *number,
                handle: *handle,
                version: *version,
            };
            server.takes_read(effects, asking, *offset, *count)
        }
        Body::Len {
            number,
            handle,
            version,
        } => {
            let asking = Asking {
                client: message.sender,
                number: *number,
                handle: *handle,
                version: *version,
            };
            server.takes_len(effects, asking)
        }
        _ => Ok(()),
    }
}

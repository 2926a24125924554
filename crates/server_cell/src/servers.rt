//! Messages that come from other servers.

ghost use Rattle.std.specs.Prelude.{◌≡◌, true, [], OnOk};
ghost use Rattle.protocol.specs.Server.{frame};
ghost use Rattle.protocol.specs.ServerStep.{server_takes};
ghost use Rattle.server_handlers.specs.Doing.{doing};
ghost use Rattle.server_cell.specs.Kinds.{is_of_servers};

use messages::message::{Body, Message};
use replica_store::fault::ReplicaStoreFault;
use replica_store::store::ReplicaStore;
use server_handlers::effects::ServerEffects;
use server_handlers::forward::MemberRequest;
use server_handlers::mutations::server_number;
use server_handlers::server::Server;

pub(crate) fn takes_of_servers<S: ReplicaStore>(
    server: &mut Server<S>,
    effects: &mut ServerEffects,
    message: &Message,
) -> Result<(), ReplicaStoreFault>
    requires nothing { server.old.state.under_way ≡ [] }
    requires kind { is_of_servers message.now.body ≡ true }
    ensures goes { OnOk result (server_takes (doing server.old.state effects.old) message.now message.now.body ≡ doing server.new.state effects.new) }
    ensures frame { frame server.new.state ≡ frame server.old.state }
{
    let sender = message.sender;
    match &message.body {
        Body::Forward {
            handle,
            version,
            serial,
            data,
            chunk,
            change,
        } => {
            let asked = MemberRequest {
                primary: sender,
                handle: *handle,
                version: *version,
                serial: *serial,
                id: *data,
                chunk: *chunk,
            };
            server.takes_forward(effects, asked, *change)
        }
        Body::Acked {
            handle,
            version,
            serial,
        } => server.takes_acked(effects, server_number(sender), *handle, *version, *serial),
        Body::Nacked {
            handle,
            version,
            serial,
            refusal,
        } => server.takes_nacked(effects, *handle, *version, *serial, *refusal),
        Body::CopyAsk { handle, version } => {
            server.takes_copy_ask(effects, sender, *handle, *version)
        }
        Body::Image {
            handle,
            version,
            serial,
            bytes,
        } => server.takes_image(effects, *handle, *version, *serial, bytes),
        _ => Ok(()),
    }
}

//! Messages that come from the master; of other kinds nothing is taken.

ghost use Rattle.std.specs.Prelude.{◌≡◌, false, [], OnOk};
ghost use Rattle.protocol.specs.Server.{frame};
ghost use Rattle.protocol.specs.ServerStep.{server_takes};
ghost use Rattle.server_handlers.specs.Doing.{doing};
ghost use Rattle.server_cell.specs.Kinds.{is_of_clients, is_of_servers};

use crate::ordered::{
    orders_clone, orders_copy_local, orders_create, orders_drop, orders_grant, orders_revoke,
    orders_set_version,
};
use messages::message::{Body, Message};
use replica_store::fault::ReplicaStoreFault;
use replica_store::store::ReplicaStore;
use server_handlers::effects::ServerEffects;
use server_handlers::server::Server;

pub(crate) fn takes_of_master<S: ReplicaStore>(
    server: &mut Server<S>,
    effects: &mut ServerEffects,
    message: &Message,
) -> Result<(), ReplicaStoreFault>
    requires nothing { server.old.state.under_way ≡ [] }
    requires clients { is_of_clients message.now.body ≡ false }
    requires servers { is_of_servers message.now.body ≡ false }
    ensures goes { OnOk result (server_takes (doing server.old.state effects.old) message.now message.now.body ≡ doing server.new.state effects.new) }
    ensures frame { frame server.new.state ≡ frame server.old.state }
{
    match &message.body {
        Body::Create {
            order,
            handle,
            version,
        } => orders_create(server, effects, *order, *handle, *version),
        Body::SetVersion {
            order,
            handle,
            version,
            base,
        } => orders_set_version(server, effects, *order, *handle, *version, *base),
        Body::Grant {
            order,
            handle,
            version,
            end,
            chunk,
            members,
        } => orders_grant(
            server, effects, *order, *handle, *version, *end, *chunk, members,
        ),
        Body::Revoke {
            order,
            handle,
            version,
        } => orders_revoke(server, effects, *order, *handle, *version),
        Body::Drop {
            order,
            handle,
            version,
        } => orders_drop(server, effects, *order, *handle, *version),
        Body::Clone {
            order,
            handle,
            version,
            source,
        } => orders_clone(server, effects, *order, *handle, *version, *source),
        Body::CopyLocal {
            order,
            handle,
            version,
            copy,
            copy_version,
        } => orders_copy_local(
            server,
            effects,
            *order,
            *handle,
            *version,
            *copy,
            *copy_version,
        ),
        Body::Extend {
            handle,
            version,
            end,
        } => {
            server.takes_extend(effects, *handle, *version, *end);
            Ok(())
        }
        _ => Ok(()),
    }
}

//! What a step is to do, before its changes are made.

ghost use Rattle.std.specs.Prelude.{◌≡◌, ◌≤◌, [], OnOk, IfOk};
ghost use Rattle.std.specs.Option.{option_copied};
ghost use Rattle.protocol.specs.Server.{frame};
ghost use Rattle.protocol.specs.ServerStep.{server_takes, server_goes};
ghost use Rattle.protocol.specs.Tables.{moment_limit};
ghost use Rattle.server_handlers.specs.Doing.{doing};
ghost use Rattle.server_cell.specs.Inputs.{input_of};
ghost use Rattle.server_cell.specs.Kinds.{is_of_clients, is_of_servers};

use crate::clients::takes_of_clients;
use crate::orders::takes_of_master;
use crate::servers::takes_of_servers;
use gfs_types::ids::Moment;
use messages::message::{Body, Message};
use replica_store::fault::ReplicaStoreFault;
use replica_store::store::ReplicaStore;
use server_handlers::effects::ServerEffects;
use server_handlers::server::Server;

fn is_of_clients(body: &Body) -> bool
    ensures { result ≡ is_of_clients body.now }
{
    matches!(
        body,
        Body::Push { .. } | Body::Mutate { .. } | Body::Read { .. } | Body::Len { .. }
    )
}

fn is_of_servers(body: &Body) -> bool
    ensures { result ≡ is_of_servers body.now }
{
    matches!(
        body,
        Body::Forward { .. }
            | Body::Acked { .. }
            | Body::Nacked { .. }
            | Body::CopyAsk { .. }
            | Body::Image { .. }
    )
}

fn plan_message<S: ReplicaStore>(
    server: &mut Server<S>,
    effects: &mut ServerEffects,
    message: &Message,
) -> Result<(), ReplicaStoreFault>
    requires { server.old.state.under_way ≡ [] }
    ensures goes { OnOk result (server_takes (doing server.old.state effects.old) message.now message.now.body ≡ doing server.new.state effects.new) }
    ensures frame { frame server.new.state ≡ frame server.old.state }
{
    if is_of_clients(&message.body) {
        return takes_of_clients(server, effects, message);
    }
    if is_of_servers(&message.body) {
        return takes_of_servers(server, effects, message);
    }
    takes_of_master(server, effects, message)
}

// A step on a message, or on a tick.
pub(crate) fn plan_step<S: ReplicaStore>(
    server: &mut Server<S>,
    now: Moment,
    message: Option<&Message>,
) -> Result<ServerEffects, ReplicaStoreFault>
    requires moment { now.0 ≤ moment_limit }
    requires nothing { server.old.state.under_way ≡ [] }
    ensures goes { IfOk result (λ e. server_goes server.old.state now.0 (input_of (option_copied message.entry)) ≡ doing server.new.state e) }
    ensures frame { frame server.new.state ≡ frame server.old.state }
{
    server.move_clock(now);
    let mut effects = ServerEffects::none(server.alloc());
    match message {
        None => server.ticks(&mut effects)?,
        Some(message) => plan_message(server, &mut effects, message)?,
    }
    Ok(effects)
}

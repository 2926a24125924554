//! A mutation that was placed.

ghost use Rattle.std.specs.Prelude.{◌≡◌, ◌<◌, ◌^◌, [], Some, OnOk};
ghost use Rattle.primary_order.specs.SerialOrder.{SerialOrder};
ghost use Rattle.gfs_types.specs.Counters.{counter_limit};
ghost use Rattle.gfs_types.specs.Mutations.{end_of};
ghost use Rattle.protocol.specs.Server.{frame};
ghost use Rattle.protocol.specs.ServerWrites.{places, primary_applies};
ghost use Rattle.server_handlers.specs.Doing.{doing, OnCounting, OnNew, held_at, numbers, applies};

use crate::mutations::{change_of, end_of, start_of, stored_as};
use gfs_types::ids::{DataId, Handle, MAX_COUNTER, Serial};
use gfs_types::mutation::Mutation;
use gfs_types::refusal::Refusal;
use messages::message::Change;
use replica_store::change::StoreChange;
use replica_store::fault::ReplicaStoreFault;
use replica_store::store::ReplicaStore;
use server_handlers::effects::ServerEffects;
use server_handlers::mutate::Forwarded;
use server_handlers::mutations::others;
use server_handlers::server::Server;

// A mutation takes the next serial; then it is applied, then forwarded. A counter at its limit lets nothing happen.
pub(crate) fn places<S: ReplicaStore>(
    server: &mut Server<S>,
    effects: &mut ServerEffects,
    id: DataId,
    handle: Handle,
    mutation: Mutation,
) -> Result<(), ReplicaStoreFault>
    requires nothing { server.old.state.under_way ≡ [] }
    requires ends { end_of mutation < 2 ^ 64 }
    ensures goes { OnOk result (OnNew server.old.state handle.0 id (λ p. places (doing server.old.state effects.old) handle.0 p id mutation ≡ doing server.new.state effects.new)) }
    ensures frame { frame server.new.state ≡ frame server.old.state }
{
    let Some(primary) = server.lease(handle) else {
        return Ok(());
    };
    if primary.serial().0 >= MAX_COUNTER {
        return Ok(());
    }
    let end = end_of(&mutation);
    if server.is_writable(handle, start_of(&mutation), end)? {
        return applies_numbered(server, effects, id, handle, mutation);
    }
    server.numbers(effects, id, handle, mutation)?;
    server.drops_corrupt(effects, handle)?;
    server.refuses_attempt(effects, id, Refusal::Corrupt)
}

// The primary gives a mutation its serial, and applies it.
fn applies_numbered<S: ReplicaStore>(
    server: &mut Server<S>,
    effects: &mut ServerEffects,
    id: DataId,
    handle: Handle,
    mutation: Mutation,
) -> Result<(), ReplicaStoreFault>
    requires { (p : SerialOrder) → held_at server.old.state handle.0 ≡ Some p → p.serial < counter_limit }
    ensures goes { OnOk result (OnNew server.old.state handle.0 id (λ p. primary_applies (numbers (doing server.old.state effects.old) handle.0 p id mutation) handle.0 p id mutation ≡ doing server.new.state effects.new)) }
    ensures frame { frame server.new.state ≡ frame server.old.state }
{
    let Some(primary) = server.lease(handle) else {
        return Ok(());
    };
    let serial = Serial(primary.serial().0 + 1);
    let stored = stored_as(handle, serial, &mutation)?;
    let change = change_of(&mutation);
    server.numbers(effects, id, handle, mutation)?;
    applies(server, effects, id, handle, serial, change, stored)
}

// The change is made, the other members are told, and this server acknowledges.
fn applies<S: ReplicaStore>(
    server: &mut Server<S>,
    effects: &mut ServerEffects,
    id: DataId,
    handle: Handle,
    serial: Serial,
    change: Change,
    stored: StoreChange,
) -> Result<(), ReplicaStoreFault>
    ensures goes { OnOk result (OnCounting server.old.state handle.0 (λ p. applies (doing server.old.state effects.old) handle.0 p serial.0 id change stored ≡ doing server.new.state effects.new)) }
    ensures frame { frame server.new.state ≡ frame server.old.state }
{
    let Some(primary) = server.lease(handle) else {
        return Ok(());
    };
    let held = primary.held();
    let me = server.id();
    let members = others(server.alloc(), held.members(), me)?;
    let forwarded = Forwarded {
        handle,
        version: held.version(),
        serial,
        id,
        chunk: primary.chunk(),
        change,
    };
    effects.change(stored)?;
    server.forwards(effects, &members, forwarded)?;
    server.acknowledges(effects, handle, me, serial)
}

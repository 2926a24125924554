//! How a primary places, numbers, applies and forwards the mutations of clients, as the protocol's definitions have it (sections 3.1
//! and 3.3).

ghost use Rattle.std.specs.Prelude.{◌≡◌, ◌+◌, [], length, nat_lt, if◌then◌else◌, OnOk};
ghost use Rattle.primary_order.specs.SerialOrder.{IsNew, attempted};
ghost use Rattle.gfs_types.specs.declared.mutation.Mutation.TheVariants as mutation;
ghost use Rattle.protocol.specs.Server.{chunk_limit, frame};
ghost use Rattle.protocol.specs.ServerWrites.{takes_mutate, mutates_as, appends_as, places};
ghost use Rattle.record_append.specs.Placing.{placing};
ghost use Rattle.server_handlers.specs.Doing.{doing, OnCounting, OnNew};
ghost use Rattle.server_cell.specs.Known.{answers_known};

use crate::placed::places;
use bytes::Bytes;
use gfs_types::ids::{DataId, Handle, Moment, Version};
use gfs_types::mutation::Mutation;
use gfs_types::refusal::Refusal;
use messages::message::Target;
use primary_order::answer::Accept;
use record_append::place;
use record_append::placing::Placing;
use replica_store::fault::ReplicaStoreFault;
use replica_store::store::ReplicaStore;
use server_handlers::effects::ServerEffects;
use server_handlers::server::Server;

/// A Mutate.
pub fn takes_mutate<S: ReplicaStore>(
    server: &mut Server<S>,
    effects: &mut ServerEffects,
    id: DataId,
    handle: Handle,
    version: Version,
    target: Target,
    deadline: Moment,
) -> Result<(), ReplicaStoreFault>
    requires { server.old.state.under_way ≡ [] }
    ensures goes { OnOk result (takes_mutate (doing server.old.state effects.old) id handle.0 version.0 target deadline.0 ≡ doing server.new.state effects.new) }
    ensures frame { frame server.new.state ≡ frame server.old.state }
{
    let Some(_) = server.primary_of(handle, version) else {
        return server.refuses_attempt(effects, id, Refusal::NoLease);
    };
    if deadline <= server.clock() {
        return server.refuses_attempt(effects, id, Refusal::Late);
    }
    mutates(server, effects, id, handle, target)
}

// By what the primary knows of the attempt's number.
fn mutates<S: ReplicaStore>(
    server: &mut Server<S>,
    effects: &mut ServerEffects,
    id: DataId,
    handle: Handle,
    target: Target,
) -> Result<(), ReplicaStoreFault>
    requires { server.old.state.under_way ≡ [] }
    ensures goes { OnOk result (OnCounting server.old.state handle.0 (λ p. mutates_as (doing server.old.state effects.old) handle.0 p id target (attempted p id.client id.seq) ≡ doing server.new.state effects.new)) }
    ensures frame { frame server.new.state ≡ frame server.old.state }
{
    let Some(primary) = server.lease(handle) else {
        return Ok(());
    };
    match primary.known(id.client, id.seq) {
        None => mutates_new(server, effects, id, handle, target),
        Some(answer) => answers_known(server, effects, id, answer),
    }
}

// A repeated attempt, or an old one, is answered at once, or not at all.
fn answers_known<S: ReplicaStore>(
    server: &Server<S>,
    effects: &mut ServerEffects,
    id: DataId,
    answer: Accept,
) -> Result<(), ReplicaStoreFault>
    ensures { OnOk result (answers_known (doing server.now.state effects.old) id answer ≡ doing server.now.state effects.new) }
{
    match answer {
        Accept::New(_) => Ok(()),
        Accept::Pending => Ok(()),
        Accept::Again(settled) => server.answers_settled(effects, id, settled.place),
        Accept::Refused(refusal) => server.refuses_attempt(effects, id, refusal),
    }
}

fn mutates_new<S: ReplicaStore>(
    server: &mut Server<S>,
    effects: &mut ServerEffects,
    id: DataId,
    handle: Handle,
    target: Target,
) -> Result<(), ReplicaStoreFault>
    requires { server.old.state.under_way ≡ [] }
    ensures goes { OnOk result (OnNew server.old.state handle.0 id (λ p. mutates_as (doing server.old.state effects.old) handle.0 p id target IsNew ≡ doing server.new.state effects.new)) }
    ensures frame { frame server.new.state ≡ frame server.old.state }
{
    let Some(row) = server.row(handle) else {
        return Ok(());
    };
    let Some(bytes) = server.data(id) else {
        return server.denies(effects, id, handle, Refusal::NoData);
    };
    let bytes = bytes.clone()?;
    match target {
        Target::Write(offset) => writes(server, effects, id, handle, offset, bytes),
        Target::Append => appends(server, effects, id, handle, row.count, bytes),
    }
}

// What doesn't lie within the chunk changes nothing and is not answered.
fn writes<S: ReplicaStore>(
    server: &mut Server<S>,
    effects: &mut ServerEffects,
    id: DataId,
    handle: Handle,
    offset: u64,
    bytes: Bytes,
) -> Result<(), ReplicaStoreFault>
    requires { server.old.state.under_way ≡ [] }
    ensures goes { OnOk result (OnNew server.old.state handle.0 id (λ p. (if nat_lt (chunk_limit server.old.state p.chunk) (offset + length bytes) then doing server.old.state effects.old else places (doing server.old.state effects.old) handle.0 p id (mutation.Write offset bytes)) ≡ doing server.new.state effects.new)) }
    ensures frame { frame server.new.state ≡ frame server.old.state }
{
    let chunk = server.leased_limit(handle);
    let count = bytes.len() as u64;
    if count > chunk || offset > chunk - count {
        return Ok(());
    }
    places(server, effects, id, handle, Mutation::Write(offset, bytes))
}

// A record, behind so many bytes of the chunk.
fn appends<S: ReplicaStore>(
    server: &mut Server<S>,
    effects: &mut ServerEffects,
    id: DataId,
    handle: Handle,
    count: u64,
    bytes: Bytes,
) -> Result<(), ReplicaStoreFault>
    requires { server.old.state.under_way ≡ [] }
    ensures goes { OnOk result (OnNew server.old.state handle.0 id (λ p. appends_as (doing server.old.state effects.old) handle.0 p id bytes (placing count (length bytes) (chunk_limit server.old.state p.chunk)) ≡ doing server.new.state effects.new)) }
    ensures frame { frame server.new.state ≡ frame server.old.state }
{
    let chunk = server.leased_limit(handle);
    match place(count, bytes.len() as u64, chunk) {
        Placing::At(offset) => {
            places(server, effects, id, handle, Mutation::Append(offset, bytes))
        }
        Placing::Pad(offset) => {
            places(server, effects, id, handle, Mutation::Pad(offset, chunk))
        }
        Placing::Full => server.denies(effects, id, handle, Refusal::ChunkFull),
        Placing::TooLong => server.denies(effects, id, handle, Refusal::ServerTooLong),
    }
}

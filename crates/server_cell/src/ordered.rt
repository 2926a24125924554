//! The master's orders, by their numbers.

ghost use Rattle.std.specs.Prelude.{◌≡◌, [], OnOk};
ghost use Rattle.protocol.specs.Server.{frame};
ghost use Rattle.protocol.specs.ServerOrders.{on_order, takes_create, takes_set_version, takes_grant, takes_revoke, takes_drop, takes_clone, takes_copy_local};
ghost use Rattle.server_handlers.specs.Doing.{doing};

use gfs_types::ids::{Handle, Moment, OrderNo, ServerId, Version};
use gfs_types::lists::ServerList;
use replica_store::fault::ReplicaStoreFault;
use replica_store::store::ReplicaStore;
use server_handlers::effects::ServerEffects;
use server_handlers::server::Server;

// Create.
pub(crate) fn orders_create<S: ReplicaStore>(
    server: &mut Server<S>,
    effects: &mut ServerEffects,
    order: OrderNo,
    handle: Handle,
    version: Version,
) -> Result<(), ReplicaStoreFault>
    ensures goes { OnOk result (on_order (doing server.old.state effects.old) order (λ o. takes_create o handle.0 version.0) ≡ doing server.new.state effects.new) }
    ensures frame { frame server.new.state ≡ frame server.old.state }
{
    if server.begins_order(effects, order)? {
        server.takes_create(effects, handle, version)?;
    }
    Ok(())
}

// SetVersion.
pub(crate) fn orders_set_version<S: ReplicaStore>(
    server: &mut Server<S>,
    effects: &mut ServerEffects,
    order: OrderNo,
    handle: Handle,
    version: Version,
    base: Version,
) -> Result<(), ReplicaStoreFault>
    ensures goes { OnOk result (on_order (doing server.old.state effects.old) order (λ o. takes_set_version o handle.0 version.0 base.0) ≡ doing server.new.state effects.new) }
    ensures frame { frame server.new.state ≡ frame server.old.state }
{
    if server.begins_order(effects, order)? {
        server.takes_set_version(effects, handle, version, base)?;
    }
    Ok(())
}

// Grant.
pub(crate) fn orders_grant<S: ReplicaStore>(
    server: &mut Server<S>,
    effects: &mut ServerEffects,
    order: OrderNo,
    handle: Handle,
    version: Version,
    end: Moment,
    chunk: u32,
    members: &ServerList,
) -> Result<(), ReplicaStoreFault>
    ensures goes { OnOk result (on_order (doing server.old.state effects.old) order (λ o. takes_grant o handle.0 version.0 end.0 chunk members.now) ≡ doing server.new.state effects.new) }
    ensures frame { frame server.new.state ≡ frame server.old.state }
{
    if server.begins_order(effects, order)? {
        server.takes_grant(effects, handle, version, end, chunk, members)?;
    }
    Ok(())
}

// Revoke.
pub(crate) fn orders_revoke<S: ReplicaStore>(
    server: &mut Server<S>,
    effects: &mut ServerEffects,
    order: OrderNo,
    handle: Handle,
    version: Version,
) -> Result<(), ReplicaStoreFault>
    ensures goes { OnOk result (on_order (doing server.old.state effects.old) order (λ o. takes_revoke o handle.0 version.0) ≡ doing server.new.state effects.new) }
    ensures frame { frame server.new.state ≡ frame server.old.state }
{
    if server.begins_order(effects, order)? {
        server.takes_revoke(effects, handle, version)?;
    }
    Ok(())
}

// Drop.
pub(crate) fn orders_drop<S: ReplicaStore>(
    server: &mut Server<S>,
    effects: &mut ServerEffects,
    order: OrderNo,
    handle: Handle,
    version: Version,
) -> Result<(), ReplicaStoreFault>
    ensures goes { OnOk result (on_order (doing server.old.state effects.old) order (λ o. takes_drop o handle.0 version.0) ≡ doing server.new.state effects.new) }
    ensures frame { frame server.new.state ≡ frame server.old.state }
{
    if server.begins_order(effects, order)? {
        server.takes_drop(effects, handle, version)?;
    }
    Ok(())
}

// Clone.
pub(crate) fn orders_clone<S: ReplicaStore>(
    server: &mut Server<S>,
    effects: &mut ServerEffects,
    order: OrderNo,
    handle: Handle,
    version: Version,
    source: ServerId,
) -> Result<(), ReplicaStoreFault>
    ensures goes { OnOk result (on_order (doing server.old.state effects.old) order (λ o. takes_clone o handle.0 version.0 source.0) ≡ doing server.new.state effects.new) }
    ensures frame { frame server.new.state ≡ frame server.old.state }
{
    if server.begins_order(effects, order)? {
        server.takes_clone(effects, handle, version, source)?;
    }
    Ok(())
}

// CopyLocal.
pub(crate) fn orders_copy_local<S: ReplicaStore>(
    server: &mut Server<S>,
    effects: &mut ServerEffects,
    order: OrderNo,
    handle: Handle,
    version: Version,
    copy: Handle,
    copy_version: Version,
) -> Result<(), ReplicaStoreFault>
    requires { server.old.state.under_way ≡ [] }
    ensures goes { OnOk result (on_order (doing server.old.state effects.old) order (λ o. takes_copy_local o handle.0 version.0 copy.0 copy_version.0) ≡ doing server.new.state effects.new) }
    ensures frame { frame server.new.state ≡ frame server.old.state }
{
    if server.begins_order(effects, order)? {
        server.takes_copy_local(effects, handle, version, copy, copy_version)?;
    }
    Ok(())
}

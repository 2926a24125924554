//! A byte that rots on a server's disk.

ghost use Rattle.std.specs.Prelude.{◌≡◌, []};
ghost use Rattle.replica_store.specs.declared.change.StoreChange.TheVariants.{Rot};
ghost use Rattle.server_cell.specs.Rots.{IsRotten};

use gfs_types::ids::Handle;
use replica_store::store::ReplicaStore;
use server_handlers::server::Server;

// Where the change fails, the server stops, and the change is under way.
pub(crate) fn rots<S: ReplicaStore>(server: &mut Server<S>, handle: Handle, place: u64, byte: u8)
    requires { server.old.state.under_way ≡ [] }
    ensures { IsRotten server.old.state (Rot handle place byte) server.new.state }
{
    match server.rot(handle, place, byte) {
        Ok(()) => {}
        Err(_) => server.stop(),
    }
}

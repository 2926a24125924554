//! Stores of replicas that can be opened again where they stand.

ghost use Rattle.std.specs.Prelude.{◌≡◌, ◌<◌, [], true, OnOk, OnErr, IsErrOf};
ghost use Rattle.replica_store.specs.Stores.{IsFound};
ghost use Rattle.replica_store.specs.declared.fault.ReplicaStoreFault.TheVariants.{DiskFailed};

use crate::fault::ReplicaStoreFault;
use crate::store::ReplicaStore;

/// A store whose disk begins again where it stands.
pub trait ReopenedStore: ReplicaStore {
    /// Opens the store again, as a restart does, and finds what was under way made or not. An error leaves all as it was.
    fn reopen(&mut self) -> Result<(), ReplicaStoreFault>
        ensures disk { OnOk result (IsFound (Self.disk self.old) (Self.under_way self.old) (Self.disk self.new)) }
        ensures nothing { OnOk result (Self.under_way self.new ≡ []) }
        ensures err { OnErr result (Self.disk self.new ≡ Self.disk self.old) }
        ensures open { OnErr result (Self.under_way self.new ≡ Self.under_way self.old) }
        ensures opened { OnOk result (Self.is_open self.new ≡ true) }
        // Its disk counts anew once it begins again.
        ensures cause { IsErrOf result DiskFailed → 0 < Self.failed self.new };
}

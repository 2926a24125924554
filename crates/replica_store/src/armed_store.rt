//! Stores of replicas whose disk can be told to fail.

ghost use Rattle.std.specs.Prelude.{◌≡◌};

use crate::store::ReplicaStore;

/// A store whose disk can be told to fail.
pub trait ArmedStore: ReplicaStore {
    /// Lets that many calls of the disk pass and fails each later one, where the disk can be told to fail.
    fn arm(&mut self, calls: u64)
        ensures disk { Self.disk self.new ≡ Self.disk self.old }
        ensures under_way { Self.under_way self.new ≡ Self.under_way self.old }
        ensures open { Self.is_open self.new ≡ Self.is_open self.old }
        ensures failed { Self.failed self.new ≡ Self.failed self.old };
}

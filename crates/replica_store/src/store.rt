//! The store of a server's replicas.

ghost use Rattle.std.specs.Prelude.{◌≡◌, ◌+◌, ℕ, Bool, true, List, [], ◌∷◌, OnOk, OnErr, IfOk};
ghost use Rattle.std.specs.FinMap as map;
ghost use Rattle.replica_store.specs.Replicas.{ServerDisk, disk_changed, disk_changed_by_all, row_at, read_at, is_copyable_at, is_writable_at, is_disk_full};
ghost use Rattle.replica_store.specs.Stores.{HasCause, IsCopyable, MadePart, replica_lines};

use crate::change::{ChangeList, StoreChange};
use crate::fault::ReplicaStoreFault;
use crate::row::Row;
use bytes::Bytes;
use gfs_types::ids::{Handle, OrderNo};
use gfs_types::no_memory::NoMemory;
use messages::message_lists::ReplicaList;
use std::alloc::Global;

/// The replicas of a server, and the number of the last order that it took. What an error leaves is said at each call; where nothing is
/// said, nothing that a caller sees has changed. Only a failed [`commit`](ReplicaStore::commit) leaves a change under way, and then the
/// store answers nothing about bytes until its disk is opened again.
pub trait ReplicaStore {
    ghost use Rattle.replica_store.specs.declared.change.StoreChange.{StoreChange};

    /// What a restart finds, where nothing is under way.
    ghost disk: { Self → ServerDisk };

    /// The change that a commit that failed may have made.
    ghost under_way: { Self → List StoreChange };

    /// It has been opened, and no change has failed since. One that isn't open answers `DiskFailed` to each call that needs its disk, until it is opened again.
    ghost is_open: { Self → Bool };

    /// How often its disk has failed since it began.
    ghost failed: { Self → ℕ };

    /// How often its disk has failed since it began.
    fn failures(&self) -> u64
        ensures { result ≡ failed self.now };

    /// What is known of a replica, from memory.
    fn row(&self, handle: Handle) -> Option<Row>
        ensures { result ≡ row_at (disk self.now) handle.0 };

    /// The number of the last order that was taken, from memory.
    fn order(&self) -> OrderNo
        ensures epoch { result.epoch ≡ (disk self.now).epoch }
        ensures count { result.count ≡ (disk self.now).count };

    /// How many replicas there are, from memory.
    fn len(&self) -> usize
        ensures { result ≡ map.len (disk self.now).replicas };

    /// Whether so many slots are used, from memory.
    fn is_full(&self, slots: u32) -> bool
        ensures { result ≡ is_disk_full slots (disk self.now) };

    /// The replicas with their versions, in rising handle, from memory.
    fn list(&self, alloc: Global) -> Result<ReplicaList, NoMemory>
        ensures { IfOk result (λ l. l ≡ replica_lines (disk self.now)) };

    /// Whether the range from `offset` to before `end` can be written over: its first and last block match their digests, where part of
    /// them is written over. True where there is no such replica.
    fn is_writable(
        &mut self,
        handle: Handle,
        offset: u64,
        end: u64,
    ) -> Result<bool, ReplicaStoreFault>
        requires { under_way self.old ≡ [] }
        ensures disk { disk self.new ≡ disk self.old }
        ensures nothing { under_way self.new ≡ [] }
        ensures value { IfOk result (λ b. b ≡ is_writable_at (disk self.old) handle.0 offset end) }
        ensures open { is_open self.new ≡ is_open self.old }
        ensures cause { HasCause (is_open self.old) (failed self.old) (failed self.new) result };

    /// Whether every block of the replica's bytes matches its digest. False where there is no such replica.
    fn is_copyable(&mut self, handle: Handle) -> Result<bool, ReplicaStoreFault>
        requires { under_way self.old ≡ [] }
        ensures disk { disk self.new ≡ disk self.old }
        ensures nothing { under_way self.new ≡ [] }
        ensures value { IfOk result (λ b. b ≡ is_copyable_at (disk self.old) handle.0) }
        ensures open { is_open self.new ≡ is_open self.old }
        ensures cause { HasCause (is_open self.old) (failed self.old) (failed self.new) result };

    /// The bytes from `offset` on, at most `count`, as they are on the disk; those past the replica's end aren't there. None where there
    /// is no such replica, or a block that the read touches doesn't match its digest.
    fn read(
        &mut self,
        alloc: Global,
        handle: Handle,
        offset: u64,
        count: u64,
    ) -> Result<Option<Bytes>, ReplicaStoreFault>
        requires { under_way self.old ≡ [] }
        ensures disk { disk self.new ≡ disk self.old }
        ensures nothing { under_way self.new ≡ [] }
        ensures value { IfOk result (λ b. b ≡ read_at (disk self.old) handle.0 offset count) }
        ensures open { is_open self.new ≡ is_open self.old }
        ensures cause { HasCause (is_open self.old) (failed self.old) (failed self.new) result };

    /// Makes a change, which a stop leaves made or not. After an error it is under way, and the store keeps it: the store is to be opened
    /// again, which finds it made or not.
    fn commit(&mut self, change: StoreChange) -> Result<(), ReplicaStoreFault>
        requires { under_way self.old ≡ [] }
        ensures disk { OnOk result (disk self.new ≡ disk_changed (disk self.old) change) }
        ensures nothing { OnOk result (under_way self.new ≡ []) }
        ensures err { OnErr result (disk self.new ≡ disk self.old) }
        ensures open { OnErr result (under_way self.new ≡ change ∷ []) }
        ensures stays_open { OnOk result (is_open self.new ≡ true) }
        ensures cause { IsCopyable (disk self.old) change → HasCause (is_open self.old) (failed self.old) (failed self.new) result };
}

/// Makes changes in their order. At an error some were made, from the first on, and the next one is under way.
pub fn commit_all<S: ReplicaStore>(
    store: &mut S,
    changes: ChangeList,
) -> Result<(), ReplicaStoreFault>
    requires { S.under_way store.old ≡ [] }
    ensures disk { OnOk result (S.disk store.new ≡ disk_changed_by_all (S.disk store.old) changes) }
    ensures nothing { OnOk result (S.under_way store.new ≡ []) }
    ensures err { OnErr result (MadePart (S.disk store.old) changes (S.disk store.new) (S.under_way store.new)) }
{
    for change in changes.into_vec() {
        store.commit(change)?;
    }
    Ok(())
}

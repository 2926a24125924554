//! The store over its disk.

ghost use Rattle.std.specs.Prelude.{◌≡◌, ◌≤◌, ◌<◌, ◌%◌, [], true, length, IfErr, IfOk};
ghost use Rattle.replica_store.specs.Replicas.{ServerDisk};
ghost use Rattle.disk_redo.specs.GateMoments.{LeavesOnly};
ghost use Rattle.store_disk.specs.Formats.{IsHeadOf, is_head_open};
ghost use Rattle.store_disk.specs.Places.{disk_size};
ghost use Rattle.chunk_store.specs.Opening.{HoldsReplicas, IsOpening};
ghost use Rattle.chunk_store.specs.Stores.{IsOpen};
ghost use Rattle.replica_store.specs.declared.fault.ReplicaStoreFault.TheVariants as faults;
ghost use Rattle.disk_store.specs.Standing.{LeavesHolding, remembered};

use crate::committing::commit;
use crate::faults::fault_of_opening;
use crate::known::Known;
use crate::looking::{is_copyable, is_writable, read};
use crate::reopening::known_of;
use crate::standing::DiskStoreState;
use bytes::Bytes;
use chunk_store::Store;
use disk::Disk;
use gfs_types::ghost_list::GhostList;
use gfs_types::ids::{Handle, OrderNo};
use gfs_types::no_memory::NoMemory;
use messages::message_lists::ReplicaList;
use replica_store::armed_store::ArmedStore;
use replica_store::change::StoreChange;
use replica_store::fault::ReplicaStoreFault;
use replica_store::row::Row;
use replica_store::store::ReplicaStore;
use std::alloc::Global;
use std::marker::Model;
use std::mem;
use store_disk::Layout;

/// A server's replicas on a disk. In memory it keeps the last order's number and each replica's row, so that it answers them while its disk
/// is to be read anew, and of bytes the two blocks at most that were hashed last; proofs alone read how the store was when it last was open. Its drop stands here, once, so that no crate above proves
/// those of all that it owns.
pub struct DiskStore<D: Disk> {
    alloc: Global,
    store: Store<D>,
    before: GhostList<Store<D>>,
    known: Known,
    standing: DiskStoreState,
}

impl<D: Disk + Drop> Drop for DiskStore<D> {
    fn drop(self) {
        let Self {
            alloc: _alloc,
            store: _store,
            before: _before,
            known: _known,
            standing: _standing,
        } = self;
    }
}

impl<D: Disk> Model for DiskStore<D> {
    ghost use Rattle.std.specs.FinMap as map;
    ghost use Rattle.std.specs.Coded.{codes, coded_ℕ};
    ghost use Rattle.disk_store.specs.Standing.{DiskStoreView, IsKept, IsRemembered, changes_of, disk_said, is_standing_open};

    ghost Value = { DiskStoreView };

    ghost coded = { Prim.hlevel (codes, map.code, coded_ℕ) };

    ghost view = { λ s. record {
      disk = disk_said D.seen s.store s.before.items s.standing;
      under_way = changes_of s.standing;
      is_open = is_standing_open s.standing;
      failed = D.failed s.store.disk;
    } };

    ghost invariant = { λ s. IsKept D.seen D.may_leave s.store s.known.order s.known.rows (disk_said D.seen s.store s.before.items s.standing) s.standing × IsRemembered s.before.items s.standing };
}

// Proofs remember how an open store is.
fn remembered<D: Disk>(
    standing: &DiskStoreState,
    store: &Store<D>,
    before: GhostList<Store<D>>,
) -> GhostList<Store<D>>
    ensures { result.items ≡ remembered standing.now store.now before.items }
{
    match standing {
        DiskStoreState::Open => GhostList::new().and(store),
        DiskStoreState::Unread(_) | DiskStoreState::Changing(_) => before,
    }
}

// What is known of an open store is read of its disk. An error hands the disk back.
fn known_or_disk<D: Disk>(
    alloc: Global,
    store: Store<D>,
) -> Result<DiskStore<D>, (D, ReplicaStoreFault)>
    requires kept { (d : ServerDisk) × IsOpen D.seen D.may_leave store d }
    ensures opened { (d : ServerDisk) → IsOpen D.seen D.may_leave store d → IfOk result (λ s. s.disk ≡ d) }
    ensures nothing { IfOk result (λ s. (s.under_way ≡ []) × (s.is_open ≡ true)) }
    ensures failed { IfOk result (λ s. s.failed ≡ D.failed store.disk) }
    ensures disk { IfErr result (λ e. (e.0 ≡ store.disk) × (e.1 ≡ faults.NoMemory)) }
{
    match known_of(alloc, &store) {
        Ok(known) => Ok(DiskStore {
            alloc,
            store,
            before: GhostList::new(),
            known,
            standing: DiskStoreState::Open,
        }),
        Err(_) => Err((store.into_disk(), ReplicaStoreFault::NoMemory)),
    }
}

impl<D: Disk> DiskStore<D> {
    /// A store on what a disk holds, for chunks of whole blocks: on one that an earlier store left, wherever it stopped, or on a new one,
    /// which is formatted. An error hands the disk back, which holds what it held.
    pub fn open(
        alloc: Global,
        disk: D,
        layout: Layout,
    ) -> Result<DiskStore<D>, (D, ReplicaStoreFault)>
        requires whole { layout.chunk % layout.block ≡ 0 }
        requires holds { (d : ServerDisk) × HoldsReplicas layout.chunk layout.block layout.slots (D.seen disk) d }
        ensures opened { (d : ServerDisk) → HoldsReplicas layout.chunk layout.block layout.slots (D.seen disk) d → IfOk result (λ s. s.disk ≡ d) }
        ensures nothing { IfOk result (λ s. (s.under_way ≡ []) × (s.is_open ≡ true)) }
        ensures held { IfErr result (λ e. (d : ServerDisk) → HoldsReplicas layout.chunk layout.block layout.slots (D.seen disk) d → HoldsReplicas layout.chunk layout.block layout.slots (D.seen e.0) d) }
        // A stop at any moment of a call that fails leaves what one before it might have left, or what holds the same.
        ensures any_moment_of_error { IfErr result (λ e. LeavesOnly D.moment D.left_since disk e.0 (IsOpening layout.chunk layout.block layout.slots (D.seen disk) (D.may_leave disk))) }
        ensures cause { IfErr result (λ e. e.1 ≡ faults.DiskFailed → D.failed disk < D.failed e.0) }
        ensures undamaged { disk_size layout.chunk layout.block layout.slots ≤ length (D.seen disk)
            → (is_head_open (D.seen disk) ≡ true → IsHeadOf layout.chunk layout.block layout.slots (D.seen disk)) → IfErr result (λ e. e.1 ≡ faults.Damaged → ⊥) }
    {
        match Store::open(alloc, disk, layout) {
            Ok(store) => known_or_disk(alloc, store),
            Err((disk, fault)) => Err((disk, fault_of_opening(fault))),
        }
    }

    /// How many bytes its chunks and its blocks have, and how many slots there are.
    pub fn layout(&self) -> Layout
        ensures chunk { result.chunk ≡ self.now.disk.chunk }
        ensures block { result.block ≡ self.now.disk.block }
        ensures slots { result.slots ≡ self.now.disk.slots }
        ensures whole { result.chunk % result.block ≡ 0 }
    {
        self.store.layout()
    }

    /// The disk as it is: it holds what the store says, with what is under way made or not, whenever it stops.
    pub fn into_disk(self) -> D
        ensures holds { self.is_open ≡ true → HoldsReplicas self.disk.chunk self.disk.block self.disk.slots (D.seen result) self.disk }
        ensures left { LeavesHolding (D.may_leave result) self.disk self.under_way }
        ensures failed { D.failed result ≡ self.failed }
    {
        let DiskStore {
            alloc: _alloc,
            store,
            before: _before,
            known: _known,
            standing: _standing,
        } = self;
        store.into_disk()
    }
}

impl<D: Disk> ReplicaStore for DiskStore<D> {
    ghost disk = { λ s. s.disk };

    ghost under_way = { λ s. s.under_way };

    ghost is_open = { λ s. s.is_open };

    ghost failed = { λ s. s.failed };

    fn failures(&self) -> u64 {
        self.store.failures()
    }

    fn row(&self, handle: Handle) -> Option<Row> {
        self.known.row(handle)
    }

    fn order(&self) -> OrderNo {
        self.known.order
    }

    fn len(&self) -> usize {
        self.known.len()
    }

    fn is_full(&self, slots: u32) -> bool {
        self.known.is_full(slots)
    }

    fn list(&self, alloc: Global) -> Result<ReplicaList, NoMemory> {
        self.known.list(alloc)
    }

    fn is_writable(
        &mut self,
        handle: Handle,
        offset: u64,
        end: u64,
    ) -> Result<bool, ReplicaStoreFault> {
        let DiskStoreState::Open = self.standing else {
            return Err(ReplicaStoreFault::DiskFailed);
        };
        is_writable(self.alloc, &mut self.store, handle, offset, end)
    }

    fn is_copyable(&mut self, handle: Handle) -> Result<bool, ReplicaStoreFault> {
        let Some(row) = self.known.row(handle) else {
            return Ok(false);
        };
        let DiskStoreState::Open = self.standing else {
            return Err(ReplicaStoreFault::DiskFailed);
        };
        is_copyable(self.alloc, &mut self.store, handle, row.version)
    }

    fn read(
        &mut self,
        alloc: Global,
        handle: Handle,
        offset: u64,
        count: u64,
    ) -> Result<Option<Bytes>, ReplicaStoreFault> {
        let Some(row) = self.known.row(handle) else {
            return Ok(None);
        };
        let DiskStoreState::Open = self.standing else {
            return Err(ReplicaStoreFault::DiskFailed);
        };
        read(alloc, &mut self.store, handle, row.version, offset, count)
    }

    fn commit(&mut self, change: StoreChange) -> Result<(), ReplicaStoreFault> {
        let before = mem::replace(&mut self.before, GhostList::new());
        self.before = remembered(&self.standing, &self.store, before);
        let standing = mem::replace(&mut self.standing, DiskStoreState::Open);
        match commit(
            self.alloc,
            &mut self.store,
            &mut self.known,
            standing,
            change,
        ) {
            Ok(()) => Ok(()),
            Err((fault, standing)) => {
                self.standing = standing;
                Err(fault)
            }
        }
    }
}

impl<D: Disk> ArmedStore for DiskStore<D> {
    fn arm(&mut self, calls: u64) {
        self.store.arm(calls);
    }
}

//! Stores that are opened over what a stop left of their disks.

ghost use Rattle.std.specs.Prelude.{◌≡◌, ◌%◌, [], IfErr, IfOk};
ghost use Rattle.tests_stores.specs.StoppedStores.{HasStore};

use disk::{FuseDisk, StopPlan};
use disk_store::disk_store::DiskStore;
use replica_store::fault::ReplicaStoreFault;
use std::alloc::Global;
use store_disk::Layout;

pub(crate) type TestStore = DiskStore<FuseDisk<Global>>;

/// A store's disk, and its sizes.
pub(crate) fn taken(store: TestStore) -> (FuseDisk<Global>, Layout)
    ensures whole { result.1.chunk % result.1.block ≡ 0 }
    ensures store { HasStore result.1 result.0 }
{
    let layout = store.layout();
    (store.into_disk(), layout)
}

/// The disk stops, and a store is opened over what the stop left. An error hands the disk back, over which it may be tried again.
pub(crate) fn open_after(
    alloc: Global,
    disk: FuseDisk<Global>,
    layout: Layout,
    stops: &mut StopPlan,
) -> Result<TestStore, (FuseDisk<Global>, ReplicaStoreFault)>
    requires whole { layout.chunk % layout.block ≡ 0 }
    requires store { HasStore layout disk }
    ensures nothing { IfOk result (λ s. s.under_way ≡ []) }
    ensures store { IfErr result (λ e. HasStore layout e.0) }
{
    DiskStore::open(alloc, stops.restart(disk), layout)
}

/// The same of a store, whose disk stops here and now.
pub(crate) fn open_again(alloc: Global, store: TestStore) -> Result<TestStore, ReplicaStoreFault>
    ensures { IfOk result (λ s. s.under_way ≡ []) }
{
    let (disk, layout) = taken(store);
    match open_after(alloc, disk, layout, &mut StopPlan::new()) {
        Ok(store) => Ok(store),
        Err((disk, fault)) => {
            drop(disk);
            Err(fault)
        }
    }
}

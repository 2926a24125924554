//! A store on a disk says what a plain model says.

ghost use Rattle.std.specs.Prelude.{◌≡◌, [], IfOk};

use crate::changes::{CHANGES, change_of, layout, rot, seen};
use crate::plain_store::PlainStore;
use crate::stopped_store::{TestStore, open_again};
use disk::{FuseDisk, MemDisk};
use disk_store::disk_store::DiskStore;
use gfs_types::ids::Handle;
use replica_store::fault::ReplicaStoreFault;
use replica_store::store::ReplicaStore;
use std::alloc::Global;
use std::test::Fail;

pub(crate) fn new_store(alloc: Global) -> Result<TestStore, ReplicaStoreFault>
    ensures { IfOk result (λ s. s.under_way ≡ []) }
{
    let layout = layout();
    let disk = MemDisk::new(alloc, layout.disk_size())?;
    DiskStore::new(alloc, FuseDisk::new(disk), layout)
}

// Whether a store shows what the model shows after a change, and once it is opened again over its disk.
fn goes_on_alike(
    alloc: Global,
    store: TestStore,
    model: &mut PlainStore,
    number: u64,
) -> Result<(TestStore, bool), ReplicaStoreFault>
    requires { store.under_way ≡ [] }
    ensures { IfOk result (λ r. r.0.under_way ≡ []) }
{
    let mut store = store;
    let change = change_of(alloc, number)?;
    model.commit(&change);
    store.commit(change)?;
    let open = seen(alloc, &mut store)? == model.shown();
    let mut again = open_again(alloc, store)?;
    let opened_again = seen(alloc, &mut again)? == model.shown();
    Ok((again, open && opened_again))
}

// Whether a byte past the chunk can't rot, a range past it can't be written over, and an empty one can.
fn refuses_past<S: ReplicaStore>(store: &mut S) -> bool
    requires { S.under_way store.old ≡ [] }
{
    let past = store.is_writable(Handle(8), 60, 65);
    let empty = store.is_writable(Handle(8), 70, 70);
    let rotten = store.commit(rot(64, 1));
    past == Err(ReplicaStoreFault::NoRoom)
        && empty == Ok(true)
        && rotten == Err(ReplicaStoreFault::NoRoom)
}

// Whether it shows the same after each change, and once it was opened again behind one that was refused.
fn are_always_alike(alloc: Global) -> Result<bool, ReplicaStoreFault> {
    let mut model = PlainStore::new();
    let mut store = new_store(alloc)?;
    for number in 0..CHANGES {
        let (again, are_alike) = goes_on_alike(alloc, store, &mut model, number)?;
        store = again;
        if !are_alike {
            return Ok(false);
        }
    }
    let refuses = refuses_past(&mut store);
    let mut again = open_again(alloc, store)?;
    let is_alike = seen(alloc, &mut again)? == model.shown();
    Ok(refuses && is_alike)
}

#[test]
fn it_says_what_a_plain_model_says(rt: HostRuntime) -> Result<(), Fail> {
    let alloc = rt.alloc();
    assert!(rt; are_always_alike(alloc)?);
    Ok(())
}

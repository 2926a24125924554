//! Calls of a store, with two slots, for chunks of 64 bytes in blocks of 16.

ghost use Rattle.std.specs.Prelude.{◌≡◌, ◌%◌, false, IfOk, OnOk};
ghost use Rattle.store_disk.specs.Formats.{is_head_open};
ghost use Rattle.tests_stores.specs.Usable.{IsUsable};

use bytes::Bytes;
use chunk_store::{OpenFault, Store, StoreFault};
use disk::{Disk, FuseDisk, MemDisk};
use gfs_types::ids::{Handle, OrderNo, Serial, Version};
use gfs_types::mutation::Mutation;
use replica_store::row::Row;
use std::alloc::{AllocError, Global};
use store_disk::Layout;

pub(crate) const SIZE: usize = 960;

/// How many steps there are before the mutation.
pub(crate) const STEPS: usize = 8;

/// And with it.
pub(crate) const ALL: usize = 9;

/// How many steps were done, and whether the one after them, or the opening before all, answered Device.
#[derive(Clone, Copy)]
pub(crate) struct Ran {
    pub(crate) done: usize,
    pub(crate) is_device: bool,
}

/// What an opening finds: how many replicas are listed, the first two of them, the number of the last order, and the disk's bytes but for the redo area. In these stand all bytes of the replicas and the digests of their blocks.
#[derive(Clone, Copy, PartialEq, Eq)]
pub(crate) struct Listing {
    count: usize,
    first: Option<(Handle, Row)>,
    second: Option<(Handle, Row)>,
    order: OrderNo,
    front: [u8; 48],
    slots: [u8; 464],
}

pub(crate) fn layout() -> Layout
    ensures chunk { result.chunk ≡ 64 }
    ensures whole { result.chunk % result.block ≡ 0 }
{
    Layout::new(64, 16, 2)
}

/// A new disk that stops after so many calls.
pub(crate) fn fused(alloc: Global, calls: u64) -> Result<FuseDisk, AllocError>
    ensures { IfOk result (λ disk. is_head_open disk.disk.bytes ≡ false) }
{
    let mut disk = FuseDisk::new(MemDisk::new(alloc, SIZE)?);
    disk.arm(calls);
    Ok(disk)
}

/// Opens a store on a new disk.
pub(crate) fn open_new<D: Disk>(disk: D, alloc: Global) -> Result<Store<D>, (D, OpenFault)>
    requires { is_head_open (D.seen disk) ≡ false }
    ensures { IfOk result (λ store. IsUsable store) }
{
    match Store::open(alloc, disk, layout()) {
        Ok(store) => Ok(store),
        Err(error) => Err(error),
    }
}

// A replica is read whole.
fn look<D: Disk>(store: &mut Store<D>, alloc: Global) -> Result<(), StoreFault>
    requires { IsUsable store.old }
    ensures { OnOk result (IsUsable store.new) }
{
    let _bytes = store.image(alloc, Handle(5), Version(4))?;
    Ok(())
}

// One of the steps.
fn step<D: Disk>(store: &mut Store<D>, alloc: Global, number: usize) -> Result<(), StoreFault>
    requires { IsUsable store.old }
    ensures { OnOk result (IsUsable store.new) }
{
    match number {
        0 => store.install(alloc, Handle(5), Version(2), Serial(9), b"abc"),
        1 => store.create(alloc, Handle(6), Version(1)),
        2 => store.set_version(alloc, Handle(5), Version(4), Version(2)),
        3 => store.drop_replica(alloc, Handle(6)),
        4 => store.copy_local(alloc, Handle(5), Version(4), Handle(7), Version(8)),
        5 => store.rot(alloc, Handle(7), 1, 120),
        6 => look(store, alloc),
        _ => store.set_order(alloc, OrderNo { epoch: 2, count: 3 }),
    }
}

// A mutation that is the last call.
fn mutate<D: Disk>(store: &mut Store<D>, alloc: Global) -> Result<(), StoreFault>
    requires { IsUsable store.old }
{
    let bytes = Bytes::copy_from_slice(alloc, b"0123456789")?;
    let mutation = Mutation::Write(20, bytes);
    store.apply(alloc, Handle(5), Version(4), Serial(1), &mutation)
}

fn failed_at(done: usize, fault: StoreFault) -> Ran {
    Ran {
        done,
        is_device: fault == StoreFault::Device,
    }
}

// Does so many steps.
fn go<D: Disk>(store: &mut Store<D>, alloc: Global, steps: usize) -> Ran
    requires { IsUsable store.old }
{
    for number in 0..STEPS {
        if number >= steps {
            return Ran {
                done: number,
                is_device: false,
            };
        }
        match step(store, alloc, number) {
            Ok(()) => {}
            Err(fault) => return failed_at(number, fault),
        }
    }
    if steps > STEPS {
        match mutate(store, alloc) {
            Ok(()) => Ran {
                done: ALL,
                is_device: false,
            },
            Err(fault) => failed_at(STEPS, fault),
        }
    } else {
        Ran {
            done: STEPS,
            is_device: false,
        }
    }
}

/// Opens a store on a new disk, and does so many steps.
pub(crate) fn run<D: Disk + Drop>(disk: D, alloc: Global, steps: usize) -> (D, Ran)
    requires { is_head_open (D.seen disk) ≡ false }
{
    match open_new(disk, alloc) {
        Ok(store) => {
            let mut store = store;
            let ran = go(&mut store, alloc, steps);
            (store.into_disk(), ran)
        }
        Err((disk, fault)) => {
            let is_device = fault == OpenFault::Device;
            (disk, Ran { done: 0, is_device })
        }
    }
}

// The replicas, without the disk's bytes.
fn list_replicas<D: Disk>(store: &Store<D>, alloc: Global) -> Result<Listing, OpenFault> {
    match store.list(alloc) {
        Ok(rows) => Ok(Listing {
            count: rows.len(),
            first: rows.first().copied(),
            second: rows.get(1).copied(),
            order: store.order(),
            front: [0; 48],
            slots: [0; 464],
        }),
        Err(_) => Err(OpenFault::NoMemory),
    }
}

// The same with the disk's bytes: the head and the order's number, and the slots behind the redo area.
fn with_bytes<D: Disk>(
    disk: &mut D,
    listing: Result<Listing, OpenFault>,
) -> Result<Listing, OpenFault> {
    let mut found = listing?;
    if disk.size() < SIZE {
        return Err(OpenFault::Damaged);
    }
    disk.read(0, &mut found.front)?;
    disk.read(496, &mut found.slots)?;
    Ok(found)
}

/// Opens a store, lists its replicas, and reads its disk.
pub(crate) fn listed<D: Disk + Drop>(disk: D, alloc: Global) -> (D, Result<Listing, OpenFault>) {
    match Store::open(alloc, disk, layout()) {
        Ok(store) => {
            let listing = list_replicas(&store, alloc);
            let mut disk = store.into_disk();
            let found = with_bytes(&mut disk, listing);
            (disk, found)
        }
        Err((disk, fault)) => (disk, Err(fault)),
    }
}

/// The same without the disk; none where it fails. What owns a disk calls `drop`: a drop at the end of a scope is proved anew at each place.
pub(crate) fn found_on<D: Disk + Drop>(disk: D, alloc: Global) -> Option<Listing> {
    let (disk, found) = listed(disk, alloc);
    drop(disk);
    found.ok()
}

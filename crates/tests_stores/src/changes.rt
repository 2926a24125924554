//! Changes that follow one another, and what is seen of a store.

ghost use Rattle.std.specs.Prelude.{◌≡◌, ◌%◌, [], OnOk};

use bytes::Bytes;
use gfs_types::ids::{Handle, OrderNo, Serial, Version};
use replica_store::change::StoreChange;
use replica_store::fault::ReplicaStoreFault;
use replica_store::row::Row;
use replica_store::store::ReplicaStore;
use std::alloc::{AllocError, Global};
use store_disk::Layout;

pub(crate) const CHANGES: u64 = 15;

pub(crate) fn layout() -> Layout
    ensures { result.chunk % result.block ≡ 0 }
{
    Layout::new(64, 16, 4)
}

fn filled(alloc: Global, count: usize, byte: u8) -> Result<Bytes, AllocError> {
    let all = vec![in alloc; byte; count]?;
    Ok(Bytes::from_vec(all)?)
}

/// A byte of replica 8 rots.
pub(crate) fn rot(place: u64, byte: u8) -> StoreChange {
    StoreChange::Rot {
        handle: Handle(8),
        place,
        byte,
    }
}

// The change of a number.
pub(crate) fn change_of(alloc: Global, number: u64) -> Result<StoreChange, ReplicaStoreFault> {
    let change = match number {
        0 => StoreChange::SetOrder(OrderNo { epoch: 1, count: 1 }),
        1 => StoreChange::Put {
            handle: Handle(7),
            version: Version(1),
            serial: Serial(0),
            bytes: filled(alloc, 0, 0)?,
        },
        2 => StoreChange::Write {
            handle: Handle(7),
            serial: Serial(1),
            offset: 0,
            bytes: filled(alloc, 20, 65)?,
        },
        3 => StoreChange::Write {
            handle: Handle(7),
            serial: Serial(2),
            offset: 18,
            bytes: filled(alloc, 9, 66)?,
        },
        4 => StoreChange::Zero {
            handle: Handle(7),
            serial: Serial(3),
            offset: 40,
            count: 24,
        },
        5 => StoreChange::SetOrder(OrderNo { epoch: 1, count: 2 }),
        6 => StoreChange::Raise {
            handle: Handle(7),
            version: Version(2),
        },
        7 => StoreChange::Copy {
            handle: Handle(7),
            copy: Handle(9),
            version: Version(1),
        },
        8 => StoreChange::Put {
            handle: Handle(8),
            version: Version(3),
            serial: Serial(5),
            bytes: filled(alloc, 33, 67)?,
        },
        9 => StoreChange::Zero {
            handle: Handle(8),
            serial: Serial(6),
            offset: 30,
            count: 5,
        },
        10 => StoreChange::Remove(Handle(7)),
        11 => StoreChange::SetOrder(OrderNo { epoch: 2, count: 1 }),
        12 => rot(3, 99),
        13 => rot(3, 67),
        // A byte that stands there already.
        _ => rot(20, 67),
    };
    Ok(change)
}

/// So many changes, from the first on.
pub(crate) fn commit_first<S: ReplicaStore>(
    alloc: Global,
    store: &mut S,
    count: u64,
) -> Result<(), ReplicaStoreFault>
    requires { S.under_way store.old ≡ [] }
    ensures { OnOk result (S.under_way store.new ≡ []) }
{
    for number in 0..count {
        store.commit(change_of(alloc, number)?)?;
    }
    Ok(())
}

/// What is seen of a store: its order, how many replicas there are, its list, and of three handles the row and the bytes. Lists and bytes
/// are seen as a hash.
#[derive(Clone, Copy, PartialEq, Eq)]
pub(crate) struct Shown {
    pub(crate) order: OrderNo,
    pub(crate) count: usize,
    pub(crate) listed: u64,
    pub(crate) rows: [Option<Row>; 3],
    pub(crate) bytes: [Option<u64>; 3],
}

pub(crate) fn seen<S: ReplicaStore>(
    alloc: Global,
    store: &mut S,
) -> Result<Shown, ReplicaStoreFault>
    requires { S.under_way store.old ≡ [] }
    ensures { S.under_way store.new ≡ [] }
{
    let rows = [
        store.row(Handle(7)),
        store.row(Handle(8)),
        store.row(Handle(9)),
    ];
    let bytes = [
        bytes_of(alloc, store, 7)?,
        bytes_of(alloc, store, 8)?,
        bytes_of(alloc, store, 9)?,
    ];
    Ok(Shown {
        order: store.order(),
        count: store.len(),
        listed: listed(alloc, store)?,
        rows,
        bytes,
    })
}

fn listed<S: ReplicaStore>(alloc: Global, store: &S) -> Result<u64, ReplicaStoreFault> {
    let lines = store.list(alloc)?;
    let mut sum: u64 = 17;
    for line in lines.as_slice() {
        sum = more(more(sum, line.handle.0), line.version.0);
    }
    Ok(sum)
}

fn bytes_of<S: ReplicaStore>(
    alloc: Global,
    store: &mut S,
    handle: u64,
) -> Result<Option<u64>, ReplicaStoreFault>
    requires { S.under_way store.old ≡ [] }
    ensures { S.under_way store.new ≡ [] }
{
    let Some(found) = store.read(alloc, Handle(handle), 0, 64)? else {
        return Ok(None);
    };
    let mut sum: u64 = 17;
    for byte in found.as_slice() {
        sum = more(sum, u64::from(*byte));
    }
    Ok(Some(sum))
}

pub(crate) fn more(sum: u64, next: u64) -> u64 {
    sum.wrapping_mul(31).wrapping_add(next)
}

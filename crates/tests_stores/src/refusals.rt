//! What a store and a log refuse.

ghost use Rattle.std.specs.Prelude.{◌≡◌, ◌%◌};

use crate::chunk_calls::{STEPS, found_on, fused, listed, open_new, run};
use crate::plan::counters;
use crate::restarts::new_log;
use crate::stopped_log::open_again;
use bytes::Bytes;
use chunk_store::{OpenFault, Store, StoreFault};
use disk::Disk;
use gfs_types::ids::{Handle, Serial, ServerId, Version};
use gfs_types::lists::ServerList;
use gfs_types::mutation::Mutation;
use log_records::record::Record;
use operation_log::fault::OperationLogFault;
use operation_log::log::OperationLog;
use std::alloc::Global;
use std::test::Fail;
use store_disk::Layout;

/// A call for the replica of a handle, with the version that it names.
enum StoreCall {
    Create(u64, u64),
    /// With serial 5 and 36 bytes.
    Install(u64, u64),
    /// The new version is 4.
    SetVersion(u64, u64),
    /// A write of this serial, of ten bytes from place 20 on.
    Apply(u64, u64, u64),
    /// To this handle, with version 1.
    CopyLocal(u64, u64, u64),
    /// Two bytes from this place on.
    Read(u64, u64, u64),
    Remove(u64),
    /// The byte in place 17.
    Rot(u64),
}

/// Calls of a new store with two slots, and what each is refused with. One that is refused changes nothing.
const CALLS: [(StoreCall, Option<StoreFault>); 31] = [
    // there is no replica
    (StoreCall::SetVersion(7, 1), Some(StoreFault::NoChunk)),
    (StoreCall::Apply(7, 1, 1), Some(StoreFault::NoChunk)),
    (StoreCall::CopyLocal(7, 1, 8), Some(StoreFault::NoChunk)),
    (StoreCall::Read(7, 1, 0), Some(StoreFault::NoChunk)),
    (StoreCall::Remove(7), Some(StoreFault::NoChunk)),
    (StoreCall::Rot(7), Some(StoreFault::NoChunk)),
    (StoreCall::Install(7, 3), None),
    // there is one already, or one of another version
    (StoreCall::Create(7, 4), Some(StoreFault::Version)),
    (StoreCall::Install(7, 4), Some(StoreFault::Version)),
    (StoreCall::SetVersion(7, 2), Some(StoreFault::Version)),
    (StoreCall::Apply(7, 4, 6), Some(StoreFault::Version)),
    (StoreCall::CopyLocal(7, 2, 8), Some(StoreFault::Version)),
    (StoreCall::CopyLocal(7, 3, 7), Some(StoreFault::Version)),
    (StoreCall::Read(7, 2, 0), Some(StoreFault::Version)),
    // its last serial is no lower
    (StoreCall::Apply(7, 3, 4), Some(StoreFault::OldSerial)),
    (StoreCall::Apply(7, 3, 5), Some(StoreFault::OldSerial)),
    (StoreCall::Apply(7, 3, 6), None),
    (StoreCall::Apply(7, 3, 6), Some(StoreFault::OldSerial)),
    // both slots are used
    (StoreCall::Create(8, 1), None),
    (StoreCall::Create(9, 1), Some(StoreFault::NoRoom)),
    (StoreCall::Install(9, 1), Some(StoreFault::NoRoom)),
    (StoreCall::CopyLocal(7, 3, 9), Some(StoreFault::NoRoom)),
    (StoreCall::Remove(8), None),
    // the second block is rotten
    (StoreCall::Rot(7), None),
    (StoreCall::Apply(7, 3, 7), Some(StoreFault::Corrupt)),
    (StoreCall::CopyLocal(7, 3, 9), Some(StoreFault::Corrupt)),
    (StoreCall::Read(7, 3, 15), Some(StoreFault::Corrupt)),
    (StoreCall::Read(7, 3, 14), None),
    (StoreCall::Read(7, 3, 32), None),
    (StoreCall::SetVersion(7, 3), None),
    (StoreCall::Create(9, 1), None),
];

// Makes a call of a store for chunks of 64 bytes; one that isn't open answers Device.
fn make<D: Disk>(store: &mut Store<D>, alloc: Global, call: &StoreCall) -> Result<(), StoreFault> {
    if !store.is_open() || store.chunk() != 64 {
        return Err(StoreFault::Device);
    }
    match call {
        StoreCall::Create(handle, version) => {
            store.create(alloc, Handle(*handle), Version(*version))
        }
        StoreCall::Install(handle, version) => store.install(
            alloc,
            Handle(*handle),
            Version(*version),
            Serial(5),
            b"abcdefghijklmnopqrstuvwxyz0123456789",
        ),
        StoreCall::SetVersion(handle, base) => {
            store.set_version(alloc, Handle(*handle), Version(4), Version(*base))
        }
        StoreCall::Apply(handle, version, serial) => {
            let mutation = Mutation::Write(20, Bytes::from_static(b"ABCDEFGHIJ"));
            store.apply(
                alloc,
                Handle(*handle),
                Version(*version),
                Serial(*serial),
                &mutation,
            )
        }
        StoreCall::CopyLocal(handle, version, copy) => store.copy_local(
            alloc,
            Handle(*handle),
            Version(*version),
            Handle(*copy),
            Version(1),
        ),
        StoreCall::Read(handle, version, offset) => {
            let _bytes = store.read(alloc, Handle(*handle), Version(*version), *offset, 2)?;
            Ok(())
        }
        StoreCall::Remove(handle) => store.drop_replica(alloc, Handle(*handle)),
        StoreCall::Rot(handle) => store.rot(alloc, Handle(*handle), 17, 120),
    }
}

// The place of the first call that isn't refused as it should be.
fn first_other<D: Disk>(store: &mut Store<D>, alloc: Global) -> Option<usize> {
    for (place, row) in CALLS.iter().enumerate() {
        if make(store, alloc, &row.0).err() != row.1 {
            return Some(place);
        }
    }
    None
}

#[test]
fn a_store_refuses_calls(rt: HostRuntime) -> Result<(), Fail> {
    let alloc = rt.alloc();
    let Ok(store) = open_new(fused(alloc, 1_000)?, alloc) else {
        return Err(Fail::from("it opens"));
    };
    let mut store = store;
    let before = store.length(Handle(7));
    let other = first_other(&mut store, alloc);
    let lengths = [before, store.length(Handle(7))];
    drop(store.into_disk());
    assert_eq!(rt; other, None);
    assert_eq!(rt; lengths, [None, Some(36)]);
    Ok(())
}

const OTHER_LAYOUTS: usize = 4;

// Other layouts than the one of a disk of 960 bytes: with another chunk, block or number of slots, of 816, 768 and 728 bytes, and one of 1,192.
fn other_layout(number: usize) -> Layout
    ensures { result.chunk % result.block ≡ 0 }
{
    match number {
        0 => Layout::new(48, 16, 2),
        1 => Layout::new(64, 32, 2),
        2 => Layout::new(64, 16, 1),
        _ => Layout::new(64, 16, 3),
    }
}

// Opens a store under another layout: the disk, and the fault.
fn opened_as<D: Disk + Drop>(disk: D, alloc: Global, number: usize) -> (D, Option<OpenFault>) {
    match Store::open(alloc, disk, other_layout(number)) {
        Ok(store) => (store.into_disk(), None),
        Err((disk, fault)) => (disk, Some(fault)),
    }
}

// And it opens again under its own layout.
#[test]
fn a_disk_of_another_layout_is_damaged(rt: HostRuntime) -> Result<(), Fail> {
    let alloc = rt.alloc();
    let (disk, ran) = run(fused(alloc, 1_000)?, alloc, STEPS);
    let (disk, before) = listed(disk, alloc);
    let mut disk = disk;
    let mut are_damaged = true;
    for number in 0..OTHER_LAYOUTS {
        let (next, fault) = opened_as(disk, alloc, number);
        disk = next;
        are_damaged = are_damaged && fault == Some(OpenFault::Damaged);
    }
    let after = found_on(disk, alloc);
    assert!(rt; are_damaged);
    assert!(rt; ran.done == STEPS && after.is_some() && after == before.ok());
    Ok(())
}

// How an append to a new log of 4,096 bytes fails, and how many records that has once it is opened again.
fn appended(alloc: Global, record: &Record) -> Option<(Option<OperationLogFault>, u64)> {
    let mut log = new_log(alloc)?;
    let fault = log.append(record).err();
    let again = open_again(alloc, log)?;
    let count = again.len();
    drop(again);
    Some((fault, count))
}

/// How many members a Grant has, and how its append fails. They take 2 bytes each, behind 20, and the record 6 more; an area has 2,019 bytes for its records.
/// Members are counted by one byte.
const GRANTS: [(usize, Option<OperationLogFault>); 4] = [
    (255, None),
    (256, Some(OperationLogFault::Unwritable)),
    (996, Some(OperationLogFault::Unwritable)),
    (997, Some(OperationLogFault::Full)),
];

// And an item of a checkpoint is no record.
#[test]
fn a_log_refuses_records(rt: HostRuntime) -> Result<(), Fail> {
    let alloc = rt.alloc();
    for (members, fault) in GRANTS {
        let record = Record::Grant {
            handle: Handle(4),
            version: Version(1),
            primary: ServerId(1),
            members: ServerList::new(vec![in alloc; 1; members]?),
        };
        let found = appended(alloc, &record);
        drop(record);
        let count = u64::from(fault.is_none());
        assert!(rt; found == Some((fault, count)), "{members} members");
    }
    let item = counters(1);
    let found = appended(alloc, &item);
    drop(item);
    assert!(rt; found == Some((Some(OperationLogFault::Damaged), 0)));
    Ok(())
}

//! What a table of files and chunks refuses, which the master takes for damage of its log; and snapshots that no script meets: the master takes none before all
//! leases have ended, and its names hold its own files alone. What is expected is what the tables of calls of both crates say (`CALLING.md`).

use chunk_table::fault::TableFault;
use chunk_table::table::Table;
use gfs_types::ids::{FileId, Handle, Moment, ServerId, Version};
use gfs_types::lists::{HandleList, ServerList};
use gfs_types::path::Path;
use gfs_types::shape::Shape;
use namespace::node::{NameNode, Namespace};
use path_trie::trie::Trie;
use snapshot::commit::commit;
use snapshot::fault::SnapshotFault;
use snapshot::plan::plan;
use std::alloc::Global;
use std::test::Fail;

const SHAPE: Shape = Shape { chunk: 64, goal: 3 };

// What a snapshot of `/a`, which is this file then, comes to at a moment.
fn outcome(
    alloc: Global,
    names: &mut Namespace<Global>,
    table: &mut Table,
    file: FileId,
    now: Moment,
) -> Result<Result<(), SnapshotFault>, Fail> {
    let from = Path::parse(alloc, "/a")?;
    let to = Path::parse(alloc, "/b")?;
    if names.insert(&from, NameNode::file(file)).is_err() {
        return Err(Fail::new("no memory"));
    }
    let found = plan(alloc, names, table, &from, &to)?;
    let outcome = commit(&found, names, table, now);
    drop(found);
    Ok(outcome)
}

// Of a file that has a chunk whose lease ends at 100, before that end and at it, and of a file that the table lacks.
fn outcomes(
    alloc: Global,
    names: &mut Namespace<Global>,
    table: &mut Table,
) -> Result<[Result<(), SnapshotFault>; 3], Fail> {
    let file = table.add_file(SHAPE)?;
    let chunk = table.add_chunk(file)?;
    let version = table.issue(chunk)?;
    let members = ServerList::new(Vec::from_slice(alloc, &[1u16, 2u16])?);
    table.grant(chunk, version, ServerId(1), members)?;
    table.set_end(chunk, Moment(100));
    let before = outcome(alloc, names, table, file, Moment(99))?;
    let after = outcome(alloc, names, table, file, Moment(100))?;
    let lacking = outcome(alloc, names, table, FileId(9), Moment(100))?;
    Ok([before, after, lacking])
}

// What owns names or a table has few ways out, and calls `drop` there: a drop at the end of a scope is proved anew at each place.
#[test]
fn a_snapshot_waits_for_the_lease_and_needs_the_file(rt: HostRuntime) -> Result<(), Fail> {
    let mut names = Trie::new(rt.alloc())?;
    let mut table = Table::new(rt.alloc());
    let outcomes = outcomes(rt.alloc(), &mut names, &mut table);
    drop(names);
    drop(table);
    let [before, after, lacking] = outcomes?;
    assert!(rt; before == Err(SnapshotFault::Leased));
    assert!(rt; after == Ok(()));
    assert!(rt; lacking == Err(SnapshotFault::Refused));
    Ok(())
}

// a table of files and chunks alone

// File 1 with chunk 1, and chunk 2 without owner. Id 2 was given out, and no file has it.
fn fill(table: &mut Table) -> Result<(), TableFault> {
    let file = table.add_file(SHAPE)?;
    let chunk = table.add_chunk(file)?;
    table.start_copy(chunk)?;
    table.put_counters(FileId(3), Handle(3))
}

// What calls come to: what is refused, and then calls that need all that was there before it.
fn faults(alloc: Global, table: &mut Table) -> [Option<TableFault>; 21] {
    let (first, copy, none) = (Handle(1), Handle(2), Handle(3));
    let (file, gone, zero, one) = (FileId(1), FileId(2), Version(0), Version(1));
    let to = ServerId(1);
    [
        table.add_chunk(gone).err(),
        table.share(gone).err(),
        table.drop_file(gone).err(),
        table.swap(gone, 0, copy).err(),
        table.swap(file, 0, none).err(),
        table.issue(none).err(),
        table.start_copy(none).err(),
        table.give_up_copy(none).err(),
        table.grant(none, one, to, ServerList::empty(alloc)).err(),
        table
            .put_row(none, zero, one, to, ServerList::empty(alloc))
            .err(),
        table.swap(file, 1, copy).err(),
        table.grant(first, one, to, ServerList::empty(alloc)).err(),
        table
            .put_row(first, one, zero, to, ServerList::empty(alloc))
            .err(),
        table.swap(file, 0, first).err(),
        table.give_up_copy(first).err(),
        table.put_counters(gone, none).err(),
        table.issue(first).err(),
        table.grant(first, one, to, ServerList::empty(alloc)).err(),
        table.grant(first, one, to, ServerList::empty(alloc)).err(),
        table.swap(file, 0, copy).err(),
        table.issue(first).err(),
    ]
}

const WANTED: [Option<TableFault>; 21] = [
    Some(TableFault::NoFile),
    Some(TableFault::NoFile),
    Some(TableFault::NoFile),
    Some(TableFault::NoFile),
    Some(TableFault::NoChunk),
    Some(TableFault::NoChunk),
    Some(TableFault::NoChunk),
    Some(TableFault::NoChunk),
    Some(TableFault::NoChunk),
    Some(TableFault::NoChunk),
    Some(TableFault::NoIndex),
    Some(TableFault::NotIssued),
    Some(TableFault::NotIssued),
    Some(TableFault::Owned),
    Some(TableFault::Owned),
    Some(TableFault::Limit),
    None,
    None,
    // it is granted
    Some(TableFault::NotIssued),
    None,
    // the copy took its place
    Some(TableFault::NoChunk),
];

// Why a file with one chunk isn't put. What owns a table has one way out, as above.
fn fault_of_file(alloc: Global, file: u64, handle: u64) -> Result<Option<TableFault>, Fail> {
    let handles = HandleList::new(Vec::from_slice(alloc, &[handle])?);
    let mut table = Table::new(alloc);
    let filled = fill(&mut table);
    let put = table.put_file(FileId(file), SHAPE, handles);
    let fault = match &put {
        Ok(_) => None,
        Err(fault) => Some(*fault),
    };
    drop(put);
    filled?;
    Ok(fault)
}

const FILES: [(u64, u64, Option<TableFault>); 6] = [
    (1, 1, Some(TableFault::Exists)),
    (0, 1, Some(TableFault::NotGiven)),
    (3, 1, Some(TableFault::NotGiven)),
    (2, 0, Some(TableFault::NotGiven)),
    (2, 3, Some(TableFault::NotGiven)),
    (2, 1, None),
];

#[test]
fn a_table_refuses_and_goes_on(rt: HostRuntime) -> Result<(), Fail> {
    let mut table = Table::new(rt.alloc());
    let filled = fill(&mut table);
    let faults = faults(rt.alloc(), &mut table);
    drop(table);
    filled?;
    for (place, (fault, wanted)) in faults.iter().zip(&WANTED).enumerate() {
        assert!(rt; fault == wanted, "call {place}");
    }
    for (file, handle, wanted) in FILES {
        let fault = fault_of_file(rt.alloc(), file, handle)?;
        assert!(rt; fault == wanted, "file {file}, chunk {handle}");
    }
    Ok(())
}

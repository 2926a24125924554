//! A change of a disk, stopped at each call of the disk.

ghost use Rattle.std.specs.Prelude.{◌≡◌, [], ◌∷◌, IfOk};

use bytes::Bytes;
use disk::{Disk, DiskFault, FuseDisk, MemDisk};
use disk_redo::{RedoArea, RedoRange, commit, open};
use gfs_types::torn::Torn;
use std::alloc::{AllocError, Global};
use std::test::Fail;

const WAYS: [Torn; 5] = [
    Torn::Old,
    Torn::New,
    Torn::Byte(0),
    Torn::Byte(1),
    Torn::Byte(7),
];

const AREA: RedoArea = RedoArea {
    place: 4,
    size: 64,
    first: 0,
};

// The change takes 17 calls of the disk, and an opening 9 at most.
const CALLS: u64 = 18;

const OPENING_CALLS: u64 = 10;

// What a run came to: whether the last call succeeded, and the first four bytes.
#[derive(Clone, Copy)]
struct RunResult {
    done: bool,
    bytes: [u8; 4],
}

fn two_ranges(alloc: Global) -> Result<Vec<RedoRange>, AllocError>
    ensures { IfOk result (λ v. v.items ≡ record { place = 0; bytes = 5 ∷ [] } ∷ record { place = 2; bytes = 6 ∷ 7 ∷ [] } ∷ []) }
{
    let mut ranges = Vec::new(alloc);
    ranges.push(RedoRange {
        place: 0,
        bytes: Bytes::copy_from_slice(alloc, &[5])?,
    })?;
    ranges.push(RedoRange {
        place: 2,
        bytes: Bytes::copy_from_slice(alloc, &[6, 7])?,
    })?;
    Ok(ranges)
}

// Opens the area, and makes the change.
fn change<D: Disk>(alloc: Global, disk: &mut D) -> Result<(), DiskFault> {
    if disk.size() != 68 {
        return Err(DiskFault::Device);
    }
    open(alloc, disk, AREA)?;
    let ranges = two_ranges(alloc)?;
    let made = commit(disk, AREA, &ranges);
    drop(ranges);
    made
}

// Opens the area, and reads the first four bytes.
fn reopened<D: Disk>(alloc: Global, disk: &mut D) -> Result<[u8; 4], DiskFault> {
    let mut out = [0; 4];
    if disk.size() != 68 {
        return Err(DiskFault::Device);
    }
    open(alloc, disk, AREA)?;
    disk.read(0, &mut out)?;
    Ok(out)
}

// The change with `calls` calls of the disk, a stop, an opening with `more` calls, a stop, and an opening.
fn stopped_twice(
    alloc: Global,
    calls: u64,
    torn: Torn,
    more: u64,
    torn_again: Torn,
) -> Result<RunResult, Fail> {
    let mut first = FuseDisk::new(MemDisk::new(alloc, 68)?);
    first.arm(calls);
    let done = change(alloc, &mut first).is_ok();
    let mut second = FuseDisk::new(first.stop(torn));
    second.arm(more);
    let _stopped = reopened(alloc, &mut second);
    let mut third = second.stop(torn_again);
    let bytes = reopened(alloc, &mut third);
    drop(third);
    Ok(RunResult {
        done,
        bytes: bytes?,
    })
}

// What every way to stop comes to.
#[derive(Clone, Copy)]
struct Outcomes {
    whole: bool,
    done: bool,
}

fn all_ways(alloc: Global, calls: u64, more: u64) -> Result<Outcomes, Fail> {
    let mut all = Outcomes {
        whole: true,
        done: true,
    };
    for torn in WAYS {
        for torn_again in WAYS {
            let found = stopped_twice(alloc, calls, torn, more, torn_again)?;
            let made = found.bytes == [5, 0, 6, 7];
            all.whole = all.whole && (made || (!found.done && found.bytes == [0, 0, 0, 0]));
            all.done = all.done && found.done;
        }
    }
    Ok(all)
}

#[test]
fn a_change_is_whole_or_not_made(rt: HostRuntime) -> Result<(), Fail> {
    let alloc = rt.alloc();
    let mut done = false;
    for calls in 0..CALLS {
        for more in 0..OPENING_CALLS {
            let all = all_ways(alloc, calls, more)?;
            assert!(rt; all.whole);
            done = all.done;
        }
    }
    assert!(rt; done);
    Ok(())
}

// The gate behind an opening, before which it is open and what stands behind it is no change.
fn gate_found<D: Disk>(alloc: Global, disk: &mut D) -> Result<[u8; 1], DiskFault> {
    let mut gate = [9; 1];
    if disk.size() != 68 {
        return Ok(gate);
    }
    disk.write_at(4, &[1, 9, 9])?;
    disk.sync()?;
    open(alloc, disk, AREA)?;
    disk.read(4, &mut gate)?;
    Ok(gate)
}

// The opening closes it.
#[test]
fn no_change_behind_an_open_gate(rt: HostRuntime) -> Result<(), Fail> {
    let mut disk = MemDisk::new(rt.alloc(), 68)?;
    let gate = gate_found(rt.alloc(), &mut disk);
    drop(disk);
    assert!(rt; gate == Ok([0]));
    Ok(())
}

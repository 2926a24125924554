//! Disks: each call once, the three ways of a stop, and refused memory.

ghost use Rattle.std.specs.Prelude.{◌≡◌, ◌≤◌, ◌+◌, length, OnOk};
ghost use Rattle.disk.specs.Bytes.{put_at};
ghost use Rattle.disk.specs.Device.{Only};

use disk::{Disk, DiskFault, FaultDisk, FuseDisk, MemDisk};
use gfs_types::torn::Torn;
use linked_list_allocator::LocalHeap;
use std::alloc::{AllocError, Allocator, Global};
use std::test::Fail;

const WAYS: [Torn; 5] = [
    Torn::Old,
    Torn::New,
    Torn::Byte(0),
    Torn::Byte(1),
    Torn::Byte(7),
];

// `None` where the range isn't on the disk.
fn put<D: Disk>(disk: &mut D, at: usize, bytes: &[u8]) -> Option<Result<(), DiskFault>> {
    let size = disk.size();
    if at > size || bytes.len() > size - at {
        return None;
    }
    Some(disk.write_at(at, bytes))
}

// The caller of CALLING.md.
/// Writes the bytes and makes them durable: from then on each stop leaves them.
fn store<D: Disk>(disk: &mut D, at: usize, bytes: &[u8]) -> Result<(), DiskFault>
    requires { at + length bytes.now ≤ length (D.seen disk.old) }
    ensures seen { OnOk result (D.seen disk.new ≡ put_at (D.seen disk.old) at bytes.now) }
    ensures durable { OnOk result (Only (D.seen disk.new) (D.may_leave disk.new)) }
{
    disk.write_at(at, bytes)?;
    disk.sync()
}

// The first four bytes, and zeros where the disk is shorter.
fn four<D: Disk>(disk: &mut D) -> Result<[u8; 4], DiskFault> {
    let mut out = [0; 4];
    if disk.size() < 4 {
        return Ok(out);
    }
    disk.read(0, &mut out)?;
    Ok(out)
}

/// A call of a disk, and that it passes or fails as the device.
#[derive(Clone, Copy)]
enum DiskCall<'a> {
    Writes(usize, &'a [u8]),
    FailsToWrite(usize, &'a [u8]),
    Stores(usize, &'a [u8]),
    Syncs,
    FailsToSync,
    // The first four bytes.
    Shows([u8; 4]),
    FailsToShow,
    Forgets,
    Arms(u64),
    HasFailed(u64),
}

fn stores<D: Disk>(disk: &mut D, at: usize, bytes: &[u8]) -> bool {
    let size = disk.size();
    if at > size || bytes.len() > size - at {
        return false;
    }
    store(disk, at, bytes).is_ok()
}

// Makes the call. Whether it comes to what it has to.
fn does<D: Disk>(disk: &mut D, call: DiskCall) -> bool {
    match call {
        DiskCall::Writes(at, bytes) => matches!(put(disk, at, bytes), Some(Ok(()))),
        DiskCall::FailsToWrite(at, bytes) => {
            matches!(put(disk, at, bytes), Some(Err(DiskFault::Device)))
        }
        DiskCall::Stores(at, bytes) => stores(disk, at, bytes),
        DiskCall::Syncs => disk.sync().is_ok(),
        DiskCall::FailsToSync => matches!(disk.sync(), Err(DiskFault::Device)),
        DiskCall::Shows(wanted) => four(disk) == Ok(wanted),
        DiskCall::FailsToShow => matches!(four(disk), Err(DiskFault::Device)),
        DiskCall::Forgets => {
            disk.forget_past();
            true
        }
        DiskCall::Arms(calls) => {
            disk.arm(calls);
            true
        }
        DiskCall::HasFailed(times) => disk.failures() == times,
    }
}

// Makes them in turn, until one doesn't come to what it has to.
fn does_all<D: Disk>(disk: &mut D, calls: &[DiskCall]) -> bool {
    for call in calls {
        if !does(disk, *call) {
            return false;
        }
    }
    true
}

// A disk of four bytes, 1 to 4, all of them synced.
fn one_to_four(alloc: Global) -> Result<MemDisk, Fail> {
    let mut disk = MemDisk::new(alloc, 4)?;
    let _written = put(&mut disk, 0, &[1, 2, 3, 4]);
    let _synced = disk.sync();
    Ok(disk)
}

// What is expected of one byte: `old` before the write of `new`.
fn settled(torn: Torn, old: u8, new: u8) -> u8 {
    match torn {
        Torn::Old => old,
        Torn::New => new,
        Torn::Byte(byte) => byte,
    }
}

// Whether the calls are made of the disk of four bytes, and a stop then leaves these. What owns a disk has one way out, and calls `drop` there: a drop at the end
// of a scope is proved anew at each place.
fn is_left_by_fuse(
    alloc: Global,
    calls: &[DiskCall],
    torn: Torn,
    wanted: [u8; 4],
) -> Result<bool, Fail> {
    let mut disk = FuseDisk::new(one_to_four(alloc)?);
    let are_made = does_all(&mut disk, calls);
    let mut left = disk.stop(torn);
    let is_left = does(&mut left, DiskCall::Shows(wanted));
    drop(left);
    Ok(are_made && is_left)
}

#[test]
fn a_stop_settles_every_single_range(rt: HostRuntime) -> Result<(), Fail> {
    let new = [5, 6, 7, 8];
    for torn in WAYS {
        for at in 0..5 {
            for end in at..5 {
                let mut want = [1, 2, 3, 4];
                for i in at..end {
                    want[i] = settled(torn, want[i], new[i]);
                }
                let calls = [DiskCall::Writes(at, &new[at..end])];
                let is_left = is_left_by_fuse(rt.alloc(), &calls, torn, want)?;
                assert!(rt; is_left, "{at} to {end}");
            }
        }
    }
    Ok(())
}

/// Calls of the disk of four bytes, and what a stop leaves of each byte: this one, or this or a second one, as the stop settles it.
const LEFT: [(&[DiskCall], [(u8, Option<u8>); 4]); 5] = [
    // what was synced stays
    (
        &[
            DiskCall::Writes(0, &[5, 6]),
            DiskCall::Syncs,
            DiskCall::Writes(1, &[9, 9]),
            DiskCall::Writes(2, &[8]),
            DiskCall::Shows([5, 9, 8, 4]),
        ],
        [(5, None), (6, Some(9)), (3, Some(8)), (4, None)],
    ),
    // and what a caller stored
    (
        &[DiskCall::Stores(1, &[9, 9])],
        [(1, None), (9, None), (9, None), (4, None)],
    ),
    // a write that fails is unsynced
    (
        &[DiskCall::Arms(0), DiskCall::FailsToWrite(1, &[9, 9])],
        [(1, None), (2, Some(9)), (3, Some(9)), (4, None)],
    ),
    // once the past is forgotten, what is unsynced may still be torn, and what was synced stays
    (
        &[
            DiskCall::Writes(0, &[5]),
            DiskCall::Syncs,
            DiskCall::Writes(1, &[6]),
            DiskCall::Forgets,
            DiskCall::Shows([5, 6, 3, 4]),
            DiskCall::Writes(2, &[7]),
        ],
        [(5, None), (2, Some(6)), (3, Some(7)), (4, None)],
    ),
    // to forget is no call that a fuse counts
    (
        &[
            DiskCall::Arms(1),
            DiskCall::Forgets,
            DiskCall::Syncs,
            DiskCall::FailsToSync,
        ],
        [(1, None), (2, None), (3, None), (4, None)],
    ),
];

// What is expected of the four bytes.
fn four_settled(torn: Torn, bytes: [(u8, Option<u8>); 4]) -> [u8; 4] {
    let mut want = [0; 4];
    for i in 0..4 {
        want[i] = match bytes[i] {
            (old, None) => old,
            (old, Some(new)) => settled(torn, old, new),
        };
    }
    want
}

#[test]
fn a_stop_leaves_what_it_may(rt: HostRuntime) -> Result<(), Fail> {
    for torn in WAYS {
        for (calls, bytes) in LEFT {
            let want = four_settled(torn, bytes);
            let is_left = is_left_by_fuse(rt.alloc(), calls, torn, want)?;
            assert!(rt; is_left, "{} calls, byte {}", calls.len(), bytes[1].0);
        }
    }
    Ok(())
}

// Whether what a stop leaves is synced: a second stop leaves it.
fn is_left_twice(alloc: Global) -> Result<bool, Fail> {
    let mut disk = FuseDisk::new(one_to_four(alloc)?);
    let is_written = does(&mut disk, DiskCall::Writes(0, &[5]));
    let mut again = FuseDisk::new(disk.stop(Torn::New));
    let is_written_again = does(&mut again, DiskCall::Writes(3, &[6]));
    let mut left = again.stop(Torn::Old);
    let is_left = does(&mut left, DiskCall::Shows([5, 2, 3, 4]));
    drop(left);
    Ok(is_written && is_written_again && is_left)
}

#[test]
fn a_stopped_disk_is_synced(rt: HostRuntime) -> Result<(), Fail> {
    assert!(rt; is_left_twice(rt.alloc())?);
    Ok(())
}

const PASSING: [DiskCall; 4] = [
    DiskCall::Writes(0, &[5]),
    DiskCall::Syncs,
    DiskCall::Shows([5, 2, 3, 4]),
    DiskCall::Syncs,
];

const FAILING: [DiskCall; 4] = [
    DiskCall::FailsToWrite(0, &[5]),
    DiskCall::FailsToSync,
    DiskCall::FailsToShow,
    DiskCall::FailsToSync,
];

// Whether of four calls just these fail.
fn fails_at<D: Disk>(disk: &mut D, fails: [bool; 4]) -> bool {
    for i in 0..4 {
        let call = if fails[i] { FAILING[i] } else { PASSING[i] };
        if !does(disk, call) {
            return false;
        }
    }
    true
}

// Whether a fuse passes so many calls, and all later ones fail.
fn passes_so_many(alloc: Global, calls: u64) -> Result<bool, Fail> {
    let mut disk = FuseDisk::new(one_to_four(alloc)?);
    let is_armed = does_all(&mut disk, &[DiskCall::Syncs, DiskCall::Arms(calls)]);
    let fails = fails_at(&mut disk, [calls < 1, calls < 2, calls < 3, calls < 4]);
    let later = [
        DiskCall::HasFailed(4u64.saturating_sub(calls)),
        DiskCall::FailsToWrite(1, &[6]),
        DiskCall::FailsToSync,
        DiskCall::FailsToShow,
        DiskCall::HasFailed(7u64.saturating_sub(calls)),
    ];
    let fails_later = does_all(&mut disk, &later);
    let size = disk.size();
    drop(disk);
    Ok(is_armed && fails && fails_later && size == 4)
}

// Whether a disk that is to fail at the call after so many does, and no other time, whatever it is armed with; and the disk below shows the bytes, and counts no
// failure. To forget is no call that it counts.
fn fails_once(alloc: Global, calls: u64) -> Result<bool, Fail> {
    let mut disk = FaultDisk::new(one_to_four(alloc)?, calls);
    let before = [DiskCall::Arms(0), DiskCall::HasFailed(0), DiskCall::Forgets];
    let is_armed = does_all(&mut disk, &before);
    let fails = fails_at(&mut disk, [calls == 0, calls == 1, calls == 2, calls == 3]);
    let shown = [DiskCall::HasFailed(1), DiskCall::Shows([5, 2, 3, 4])];
    let is_shown = does_all(&mut disk, &shown);
    let mut below = disk.into_disk();
    let is_below = does_all(
        &mut below,
        &[DiskCall::Shows([5, 2, 3, 4]), DiskCall::HasFailed(0)],
    );
    drop(below);
    Ok(is_armed && fails && is_shown && is_below)
}

#[test]
fn calls_fail_as_they_are_to(rt: HostRuntime) -> Result<(), Fail> {
    for calls in 0..4 {
        assert!(rt; passes_so_many(rt.alloc(), calls)?, "{calls} calls pass");
        assert!(rt; fails_once(rt.alloc(), calls)?, "call {calls} fails");
    }
    Ok(())
}

// Whether the write is refused for want of memory.
fn is_refused<D: Disk>(disk: &mut D, at: usize, byte: u8) -> bool {
    matches!(put(disk, at, &[byte]), Some(Err(DiskFault::NoMemory)))
}

// How many single bytes, each its place's number and one more, can be written before one is refused. None: refused once more, the write kept memory again.
fn writes_taken<D: Disk>(heap: &LocalHeap, disk: &mut D, count: u8) -> Option<u8> {
    for n in 0..count {
        if is_refused(disk, n as usize, n + 1) {
            let used = heap.used();
            let again = is_refused(disk, n as usize, n + 1);
            return if again && heap.used() == used {
                Some(n)
            } else {
                None
            };
        }
    }
    Some(count)
}

// What five bytes are after so many of these writes.
fn after_writes(taken: Option<u8>, byte: Option<u8>) -> [u8; 5] {
    let mut want = [0; 5];
    for i in 0..taken.unwrap_or(0).min(5) {
        want[i as usize] = byte.unwrap_or(i + 1);
    }
    want
}

// The first five bytes.
fn five<D: Disk>(disk: &mut D) -> Result<[u8; 5], DiskFault> {
    let mut out = [0; 5];
    if disk.size() < 5 {
        return Ok(out);
    }
    disk.read(0, &mut out)?;
    Ok(out)
}

// Whether these are the first five bytes.
fn shows_five<D: Disk>(disk: &mut D, wanted: [u8; 5]) -> bool {
    five(disk) == Ok(wanted)
}

// How many of five writes are taken. None: a refused one kept memory, or what is read isn't what was taken.
fn writes_shown<D: Disk>(heap: &LocalHeap, disk: &mut D) -> Option<u8> {
    let taken = writes_taken(heap, disk, 5);
    if shows_five(disk, after_writes(taken, None)) {
        taken
    } else {
        None
    }
}

// Whether a stop of the disk leaves these bytes.
fn leaves_five<A: Allocator + Clone + Drop>(
    disk: FuseDisk<A>,
    torn: Torn,
    wanted: [u8; 5],
) -> bool {
    let mut left = disk.stop(torn);
    let is_left = shows_five(&mut left, wanted);
    drop(left);
    is_left
}

// Whether the disk below has these bytes.
fn leaves_five_below<A: Allocator + Clone + Drop>(disk: FaultDisk<A>, wanted: [u8; 5]) -> bool {
    let mut below = disk.into_disk();
    let is_left = shows_five(&mut below, wanted);
    drop(below);
    is_left
}

// How many of five writes a disk in the heap takes, which has none of it before. None where a byte is another one, or a refused write kept memory.
fn plain_takes(heap: &LocalHeap) -> Result<Option<u8>, AllocError> {
    let mut disk = MemDisk::new(heap, 40)?;
    let is_free = heap.used() == 0;
    let taken = writes_shown(heap, &mut disk);
    let is_synced = does(&mut disk, DiskCall::Syncs);
    let want = after_writes(taken, None);
    let is_left = leaves_five(FuseDisk::new(disk), Torn::Byte(9), want);
    let is_well = is_free && is_synced && is_left;
    Ok(if is_well { taken } else { None })
}

// The same with a fuse: a stop without a sync tears what was written, and nothing of a refused write.
fn fuse_takes(heap: &LocalHeap) -> Result<Option<u8>, AllocError> {
    let mut disk = FuseDisk::new(MemDisk::new(heap, 40)?);
    disk.arm(7);
    let taken = writes_shown(heap, &mut disk);
    let failures = disk.failures();
    let is_left = leaves_five(disk, Torn::Byte(9), after_writes(taken, Some(9)));
    let is_well = failures == 0 && is_left;
    Ok(if is_well { taken } else { None })
}

// Whether so many syncs pass, and the next one fails.
fn sync_fails_after<D: Disk>(disk: &mut D, count: u8) -> bool {
    for _call in 0..count {
        if !does(disk, DiskCall::Syncs) {
            return false;
        }
    }
    does(disk, DiskCall::FailsToSync)
}

// The same with a disk that is to fail later: a refused write, done twice, counts as calls that passed.
fn fault_takes(heap: &LocalHeap) -> Result<Option<u8>, AllocError> {
    let mut disk = FaultDisk::new(MemDisk::new(heap, 40)?, 7);
    let taken = writes_shown(heap, &mut disk);
    let failures = disk.failures();
    let more = match taken {
        Some(taken) if taken < 5 => 4 - taken,
        _ => 1,
    };
    let has_failed = sync_fails_after(&mut disk, more);
    let is_left = leaves_five_below(disk, after_writes(taken, None));
    let is_well = failures == 0 && has_failed && is_left;
    Ok(if is_well { taken } else { None })
}

// The same of the three disks, each in a new heap of so many bytes.
fn writes_taken_within(alloc: Global, size: usize) -> Result<[Option<u8>; 3], AllocError> {
    let heap = LocalHeap::new(alloc, size)?;
    let (plain, fuse, fault) = (plain_takes(&heap), fuse_takes(&heap), fault_takes(&heap));
    drop(heap);
    Ok([plain?, fuse?, fault?])
}

// Heaps that grow by the least block, so that each allocation in turn is the first to be refused: those of five writes.
#[test]
fn refused_memory_changes_no_byte(rt: HostRuntime) -> Result<(), Fail> {
    let mut met = [false; 6];
    for size in 1..100 {
        let [plain, fuse, fault] = writes_taken_within(rt.alloc(), size * 16)?;
        assert!(rt; plain.is_some(), "heap {size}");
        assert!(rt;
            fuse == plain && fault == plain,
            "a fuse or a fault, heap {size}"
        );
        met[plain.unwrap_or(0).min(5) as usize] = true;
    }
    assert!(rt; met == [true; 6]);
    Ok(())
}

// Whether a new disk in the heap takes a write.
fn takes_a_write(heap: &LocalHeap) -> Result<bool, AllocError> {
    let mut disk = MemDisk::new(heap, 40)?;
    let is_taken = does(&mut disk, DiskCall::Writes(0, &[7]));
    drop(disk);
    Ok(is_taken)
}

// Whether a write to a new disk with a fuse fails, and a stop then leaves these bytes.
fn fuse_leaves(heap: &LocalHeap, wanted: [u8; 5]) -> Result<bool, AllocError> {
    let mut disk = FuseDisk::new(MemDisk::new(heap, 40)?);
    disk.arm(0);
    let has_failed = does(&mut disk, DiskCall::FailsToWrite(0, &[7]));
    let is_left = leaves_five(disk, Torn::New, wanted);
    Ok(has_failed && is_left)
}

// Whether a write to a new disk that fails once does, and the disk below then has these bytes.
fn fault_leaves(heap: &LocalHeap, wanted: [u8; 5]) -> Result<bool, AllocError> {
    let mut disk = FaultDisk::new(MemDisk::new(heap, 40)?, 0);
    let has_failed = does(&mut disk, DiskCall::FailsToWrite(0, &[7]));
    let is_left = leaves_five_below(disk, wanted);
    Ok(has_failed && is_left)
}

// In a new heap of so many bytes: whether a disk takes a write, and whether of a write that fails just that is left.
fn write_within(alloc: Global, size: usize) -> Result<(bool, bool), AllocError> {
    let heap = LocalHeap::new(alloc, size)?;
    let is_taken = takes_a_write(&heap);
    let want = if is_taken == Ok(true) {
        [7, 0, 0, 0, 0]
    } else {
        [0; 5]
    };
    let (fuse, fault) = (fuse_leaves(&heap, want), fault_leaves(&heap, want));
    drop(heap);
    Ok((is_taken?, fuse? && fault?))
}

// A write that fails has reached the disk only where there was memory for it.
#[test]
fn a_failed_write_without_memory_is_lost(rt: HostRuntime) -> Result<(), Fail> {
    let mut met = [false; 2];
    for size in 1..100 {
        let (is_taken, is_left) = write_within(rt.alloc(), size * 16)?;
        assert!(rt; is_left, "heap {size}");
        met[usize::from(is_taken)] = true;
    }
    assert!(rt; met == [true; 2]);
    Ok(())
}

// Rounds of a store: each forgets what was before it, writes to one place and syncs. Whether all calls pass.
fn writes_in_rounds<D: Disk>(disk: &mut D, rounds: u64) -> bool {
    for round in 0..rounds {
        let bytes = [(round % 200) as u8, 9];
        if !does_all(
            disk,
            &[
                DiskCall::Forgets,
                DiskCall::Writes(1, &bytes),
                DiskCall::Syncs,
            ],
        ) {
            return false;
        }
    }
    true
}

// Whether many rounds on a new disk in the heap keep no more of it than some.
fn keeps_no_more(heap: &LocalHeap) -> Result<bool, AllocError> {
    let mut disk = MemDisk::new(heap, 4)?;
    let are_some_made = writes_in_rounds(&mut disk, 1_000);
    let used = heap.used();
    let are_many_made = writes_in_rounds(&mut disk, 50_000);
    let is_same = heap.used() == used;
    drop(disk);
    Ok(are_some_made && are_many_made && is_same)
}

#[test]
fn memory_stays_where_the_past_is_forgotten(rt: HostRuntime) -> Result<(), Fail> {
    let heap = LocalHeap::new(rt.alloc(), 10_000)?;
    let keeps_no_more = keeps_no_more(&heap);
    drop(heap);
    assert!(rt; keeps_no_more?);
    Ok(())
}

const PAGE: usize = 4_096;

// The bytes of a range; None where it isn't on the disk.
fn bytes_at<D: Disk>(disk: &mut D, at: usize, out: &mut [u8]) -> Option<Result<(), DiskFault>> {
    let size = disk.size();
    if at > size || out.len() > size - at {
        return None;
    }
    Some(disk.read(at, out))
}

// Whether these are the ten bytes at a place.
fn shows_ten<D: Disk>(disk: &mut D, at: usize, wanted: [u8; 10]) -> bool {
    let mut out = [1; 10];
    matches!(bytes_at(disk, at, &mut out), Some(Ok(()))) && out == wanted
}

// How much of the heap a new disk of a hundred pages takes, of which one is written; none where a byte is another one, or it takes some before.
fn used_by_a_page(heap: &LocalHeap) -> Result<Option<usize>, AllocError> {
    let mut disk = MemDisk::new(heap, 100 * PAGE)?;
    let is_blank = disk.size() == 100 * PAGE && shows_ten(&mut disk, 99 * PAGE, [0; 10]);
    let is_free = heap.used() == 0;
    let is_written = does(&mut disk, DiskCall::Writes(99 * PAGE + 4_090, &[7, 8]));
    let used = heap.used();
    let want = [0, 0, 0, 0, 7, 8, 0, 0, 0, 0];
    let is_shown = shows_ten(&mut disk, 99 * PAGE + 4_086, want);
    let is_past_shown = shows_ten(&mut disk, 100 * PAGE - 9, [0; 10]);
    drop(disk);
    let is_well = is_blank && is_free && is_written && is_shown && !is_past_shown;
    Ok(if is_well { Some(used) } else { None })
}

#[test]
fn a_large_disk_takes_the_pages_that_are_written(rt: HostRuntime) -> Result<(), Fail> {
    let heap = LocalHeap::new(rt.alloc(), 40 * PAGE)?;
    let used = used_by_a_page(&heap);
    drop(heap);
    let used = used?.unwrap_or(usize::MAX);
    assert!(rt; used < 3 * PAGE, "{used}");
    Ok(())
}

// What the byte at a place is to be once the second of two writes is settled.
fn settled_at(torn: Torn, place: usize) -> u8 {
    let old = if place >= 4_000 && place < 11_000 {
        3
    } else {
        0
    };
    if place >= 4_090 && place < 9_090 {
        settled(torn, old, 5)
    } else {
        old
    }
}

// The first place, from 2,000 on, of 10,000 bytes that isn't so: 0 where they can't be read, None where all are.
fn first_unsettled<D: Disk>(disk: &mut D, torn: Torn) -> Option<usize> {
    let mut out = [1; 10_000];
    if !matches!(bytes_at(disk, 2_000, &mut out), Some(Ok(()))) {
        return Some(0);
    }
    for i in 0..10_000 {
        if out[i] != settled_at(torn, 2_000 + i) {
            return Some(2_000 + i);
        }
    }
    None
}

// The same of what a stop leaves, once both are written; 0 where they aren't.
fn first_left_unsettled(alloc: Global, torn: Torn) -> Result<Option<usize>, AllocError> {
    let mut disk = FuseDisk::new(MemDisk::new(alloc, 3 * PAGE - 100)?);
    let calls = [
        DiskCall::Writes(4_000, &[3; 7_000]),
        DiskCall::Syncs,
        DiskCall::Writes(4_090, &[5; 5_000]),
    ];
    let are_made = does_all(&mut disk, &calls);
    let mut left = disk.stop(torn);
    let found = first_unsettled(&mut left, torn);
    drop(left);
    Ok(if are_made { found } else { Some(0) })
}

// A range over three pages, written over again in part and settled in each way.
#[test]
fn a_stop_settles_a_range_over_pages(rt: HostRuntime) -> Result<(), Fail> {
    for torn in WAYS {
        let place = first_left_unsettled(rt.alloc(), torn)?.unwrap_or(usize::MAX);
        assert!(rt; place == usize::MAX, "place {place}");
    }
    Ok(())
}

#[test]
fn faults_have_texts(rt: HostRuntime) -> Result<(), Fail> {
    let texts = format!(in rt.alloc(); "{}, {}", DiskFault::Device, DiskFault::NoMemory)?;
    assert!(rt; texts.as_str() == "disk failed, no memory");
    Ok(())
}

//! Slots, by hand.

use gfs_types::ids::{Handle, Serial, Version};
use replica_store::row::Row;
use std::alloc::{AllocError, Global};
use std::test::Fail;
use store_disk::{FreeSlots, HeldReplica, SlotIndex};

/// A call of an index, with a replica's number and the count of its row, and what it has to come to.
#[derive(Clone, Copy)]
enum IndexCall {
    // The slot that is given, if one is free.
    Adds(u64, u64, Option<u32>),
    Removes(u64),
    // The slot and the row's count.
    Updates(u64, (u32, u64)),
    Occupies(u64, (u32, u64)),
    Has(u64, Option<(u32, u64)>),
}

fn row(count: u64) -> Row {
    Row {
        version: Version(1),
        serial: Serial(0),
        count,
    }
}

fn held(slot: u32, count: u64) -> HeldReplica {
    HeldReplica {
        slot,
        row: row(count),
    }
}

fn has(index: &SlotIndex, handle: u64, wanted: Option<(u32, u64)>) -> bool {
    match (index.get(Handle(handle)), wanted) {
        (Some(found), Some((slot, count))) => found == held(slot, count),
        (found, wanted) => found.is_none() && wanted.is_none(),
    }
}

// Makes the call. Whether it comes to what it has to.
fn does(index: &mut SlotIndex, call: IndexCall) -> Result<bool, AllocError> {
    match call {
        IndexCall::Adds(handle, count, slot) => Ok(index.add(Handle(handle), row(count))? == slot),
        IndexCall::Removes(handle) => {
            index.remove(Handle(handle))?;
            Ok(true)
        }
        IndexCall::Updates(handle, (slot, count)) => {
            index.update(Handle(handle), held(slot, count))?;
            Ok(true)
        }
        IndexCall::Occupies(handle, (slot, count)) => {
            index.occupy(Handle(handle), held(slot, count))?;
            Ok(true)
        }
        IndexCall::Has(handle, wanted) => Ok(has(index, handle, wanted)),
    }
}

// The first of these calls that comes to something else; None where there is none.
fn first_wrong(index: &mut SlotIndex, calls: &[IndexCall]) -> Result<Option<usize>, AllocError> {
    for place in 0..calls.len() {
        if !does(index, calls[place])? {
            return Ok(Some(place));
        }
    }
    Ok(None)
}

// The same of a new index of so many slots, and how many calls there are where none does.
fn wrong_in(alloc: Global, slots: u32, calls: &[IndexCall]) -> Result<usize, AllocError> {
    let mut index = SlotIndex::new(alloc, slots)?;
    let first = first_wrong(&mut index, calls);
    drop(index);
    Ok(first?.unwrap_or(calls.len()))
}

// A slot that is free again is the next one that is taken, where it is the lowest.
const LOWEST_FREE: [IndexCall; 10] = [
    IndexCall::Adds(7, 5, Some(0)),
    IndexCall::Adds(9, 6, Some(1)),
    IndexCall::Adds(1, 7, Some(2)),
    IndexCall::Adds(4, 8, None),
    IndexCall::Removes(9),
    IndexCall::Removes(7),
    IndexCall::Has(9, None),
    IndexCall::Adds(4, 8, Some(0)),
    IndexCall::Updates(4, (0, 9)),
    IndexCall::Has(4, Some((0, 9))),
];

#[test]
fn the_lowest_free_slot_is_taken(rt: HostRuntime) -> Result<(), Fail> {
    let place = wrong_in(rt.alloc(), 3, &LOWEST_FREE)?;
    assert!(rt; place == LOWEST_FREE.len(), "call {place}");
    Ok(())
}

// The slots of a disk that is opened.
const USED: [IndexCall; 4] = [
    IndexCall::Occupies(2, (1, 3)),
    IndexCall::Has(2, Some((1, 3))),
    IndexCall::Adds(3, 0, Some(0)),
    IndexCall::Adds(4, 0, Some(2)),
];

#[test]
fn slots_that_are_used(rt: HostRuntime) -> Result<(), Fail> {
    let place = wrong_in(rt.alloc(), 4, &USED)?;
    assert!(rt; place == USED.len(), "call {place}");
    Ok(())
}

// The lowest slot, whether the second one is taken, and the slots that are taken then, before that one is free again and behind it.
fn slots_taken(free: &mut FreeSlots) -> Result<(bool, [Option<u32>; 5]), AllocError> {
    let lowest = free.lowest();
    let is_taken = free.take(1);
    let first = free.take_lowest();
    let second = free.take_lowest();
    let none = free.take_lowest();
    free.put(1)?;
    Ok((is_taken, [lowest, first, second, none, free.take_lowest()]))
}

#[test]
fn free_slots_in_order(rt: HostRuntime) -> Result<(), Fail> {
    let mut free = FreeSlots::all(rt.alloc(), 3)?;
    let taken = slots_taken(&mut free);
    drop(free);
    let (is_taken, slots) = taken?;
    assert!(rt; is_taken);
    assert_eq!(rt; slots, [Some(0), Some(0), Some(2), None, Some(1)]);
    Ok(())
}

//! Names in a region: random calls beside a plain map, and memory that comes back.

use crate::both::{
    are_alike, copy_in_both, draw, drawn, drawn_bytes, is_removed_alike, numbered, put_in_both,
};
use linked_list_allocator::LocalHeap;
use path_trie::trie::Trie;
use std::alloc::{Allocator, Global};
use std::collections::BTreeMap;
use std::test::Fail;

/// How often a name was refused, a copy was made, and one was refused.
type Counts = (u64, u64, u64);

// A copy in both between two paths of two parts, so that no copy has more than four.
fn copy_drawn<A: Allocator + Clone>(
    alloc: Global,
    seed: &mut u64,
    trie: &mut Trie<u64, A>,
    plain: &mut BTreeMap<String, u64>,
    counts: &mut Counts,
) -> Result<(), Fail> {
    let from = drawn(seed, alloc, 2)?;
    let to = drawn(seed, alloc, 2)?;
    match copy_in_both(alloc, trie, plain, from.as_str(), to.as_str())? {
        Some(true) => counts.1 = counts.1.saturating_add(1),
        Some(false) => counts.2 = counts.2.saturating_add(1),
        None => {}
    }
    Ok(())
}

// One call of both by chance, of a path of at most so many parts; of one part by its bytes where there is to be none. Whether they answer alike.
fn call_drawn<A: Allocator + Clone>(
    alloc: Global,
    seed: &mut u64,
    trie: &mut Trie<u64, A>,
    plain: &mut BTreeMap<String, u64>,
    counts: &mut Counts,
    most: u64,
    value: u64,
) -> Result<bool, Fail> {
    let text = if most == 0 {
        drawn_bytes(seed, alloc)?
    } else {
        let parts = draw(seed, most).saturating_add(1);
        drawn(seed, alloc, parts)?
    };
    let kind = draw(seed, 10);
    if kind <= 4 {
        let is_put = put_in_both(alloc, trie, plain, text.as_str(), value)?;
        counts.0 = counts.0.saturating_add(u64::from(is_put == Some(false)));
        Ok(is_put.is_some())
    } else if kind <= 8 {
        is_removed_alike(alloc, trie, plain, text.as_str())
    } else {
        copy_drawn(alloc, seed, trie, plain, counts)?;
        Ok(true)
    }
}

// The first of 20,000 calls that isn't answered alike, or after which names or values differ, of which each fiftieth is looked at. None where there is none.
fn first_unlike<A: Allocator + Clone>(
    alloc: Global,
    trie: &mut Trie<u64, A>,
    plain: &mut BTreeMap<String, u64>,
    counts: &mut Counts,
    most: u64,
) -> Result<Option<u64>, Fail> {
    let mut seed = 7;
    for step in 0..20_000u64 {
        let is_alike = call_drawn(alloc, &mut seed, trie, plain, counts, most, step)?;
        if !is_alike || (step % 50 == 0 && !are_alike(alloc, trie, plain)?) {
            return Ok(Some(step));
        }
    }
    Ok(None)
}

// The same in the heap. What owns names has few ways out, and calls `drop` there: a drop at the end of a scope is proved anew at each place.
fn first_unlike_in(
    alloc: Global,
    heap: &LocalHeap,
    counts: &mut Counts,
    most: u64,
) -> Result<Option<u64>, Fail> {
    let mut trie = Trie::new(heap)?;
    let mut plain = BTreeMap::new(alloc);
    let step = first_unlike(alloc, &mut trie, &mut plain, counts, most);
    drop(trie);
    drop(plain);
    step
}

// Of how many parts names are at most, the bytes of their region, and how many copies must be refused: of names by their bytes there is nothing to be copied.
const RUNS: [(u64, usize, u64); 2] = [(4, 16_384, 11), (0, 4_096, 0)];

#[test]
fn random_calls(rt: HostRuntime) -> Result<(), Fail> {
    let alloc = rt.alloc();
    for (most, size, refused_copies) in RUNS {
        let heap = LocalHeap::new(alloc, size)?;
        let mut counts = (0u64, 0u64, 0u64);
        let step = first_unlike_in(alloc, &heap, &mut counts, most);
        drop(heap);
        let step = step?;
        assert!(rt; step.is_none(), "{}", step.unwrap_or(0));
        assert!(rt; counts.0 > 100, "{}", counts.0);
        assert!(rt; counts.1 > 10, "{}", counts.1);
        assert!(rt; counts.2 >= refused_copies, "{}", counts.2);
    }
    Ok(())
}

// Fills the region with names, and with a copy of one, and takes all out again: how many names there were, and the bytes that they took. None where something is
// wrong, or something is left.
fn filled(
    alloc: Global,
    heap: &LocalHeap,
    trie: &mut Trie<u64, &LocalHeap>,
    plain: &mut BTreeMap<String, u64>,
) -> Result<Option<(usize, usize)>, Fail> {
    let mut all = false;
    for number in 0..1_000u64 {
        let text = numbered(alloc, 10, number)?;
        if put_in_both(alloc, trie, plain, text.as_str(), number)? != Some(true) {
            break;
        }
        if number == 9 {
            all = copy_in_both(alloc, trie, plain, "/d7", "/e")? == Some(true);
        }
    }
    let (count, used) = (trie.len(), heap.used());
    all = is_removed_alike(alloc, trie, plain, "/e/f7")? && all;
    for number in 0..count as u64 {
        let text = numbered(alloc, 10, number)?;
        all = is_removed_alike(alloc, trie, plain, text.as_str())? && all;
    }
    Ok(if all && plain.len() == 0 && trie.len() == 0 && heap.used() == 0 {
        Some((count, used))
    } else {
        None
    })
}

// How many names a region takes, and takes again a thousand times with as many bytes; 0 where it doesn't.
fn names_in_rounds(
    alloc: Global,
    heap: &LocalHeap,
    trie: &mut Trie<u64, &LocalHeap>,
    plain: &mut BTreeMap<String, u64>,
) -> Result<usize, Fail> {
    let first = filled(alloc, heap, trie, plain)?;
    for _ in 0..1_000 {
        if filled(alloc, heap, trie, plain)? != first {
            return Ok(0);
        }
    }
    Ok(first.map_or(0, |met| met.0))
}

fn names_in_heap(alloc: Global, heap: &LocalHeap) -> Result<usize, Fail> {
    let mut trie = Trie::new(heap)?;
    let mut plain = BTreeMap::new(alloc);
    let count = names_in_rounds(alloc, heap, &mut trie, &mut plain);
    drop(trie);
    drop(plain);
    count
}

#[test]
fn a_thousand_rounds(rt: HostRuntime) -> Result<(), Fail> {
    let alloc = rt.alloc();
    let heap = LocalHeap::new(alloc, 2_048)?;
    let count = names_in_heap(alloc, &heap)?;
    assert!(rt; count > 12, "{count}");
    Ok(())
}

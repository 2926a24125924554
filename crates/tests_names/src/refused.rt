//! Each growth refused in turn: names and copies of them in regions that grow by the least block.

use crate::both::{are_alike, copy_in_both, drawn, put_in_both};
use linked_list_allocator::LocalHeap;
use path_trie::trie::Trie;
use std::alloc::Global;
use std::collections::BTreeMap;
use std::test::Fail;

// These bytes, so many parts of 255 bytes, and then these.
pub(crate) fn long(alloc: Global, front: &str, parts: u64, tail: &str) -> Result<String, Fail> {
    let mut text = String::from_str(alloc, front)?;
    for _ in 0..parts {
        let part = format!(in alloc; "/{:a<255}", "")?;
        text.push_str(part.as_str())?;
    }
    text.push_str(tail)?;
    Ok(text)
}

// Whether a step was made. What was refused kept no memory, and both have the same names and values then as before it.
fn is_made(
    alloc: Global,
    heap: &LocalHeap,
    trie: &Trie<u64, &LocalHeap>,
    plain: &BTreeMap<String, u64>,
    made: Option<bool>,
    used: usize,
) -> Result<bool, Fail> {
    let is_kept = are_alike(alloc, trie, plain)?;
    match made {
        Some(true) if is_kept => Ok(true),
        Some(false) if is_kept && heap.used() == used => Ok(false),
        _ => Err(Fail::new("another name or value is there, or memory is lost")),
    }
}

// How many steps are made before one is refused: each name is put, and then `/d` is copied to a path, if there is one.
fn steps_made(
    alloc: Global,
    heap: &LocalHeap,
    trie: &mut Trie<u64, &LocalHeap>,
    plain: &mut BTreeMap<String, u64>,
    names: &[String],
    to: &str,
) -> Result<usize, Fail> {
    let mut count = 0usize;
    for name in names {
        let used = heap.used();
        let is_put = put_in_both(alloc, trie, plain, name.as_str(), count as u64)?;
        if !is_made(alloc, heap, trie, plain, is_put, used)? {
            return Ok(count);
        }
        count = count.saturating_add(1);
    }
    if to.is_empty() {
        return Ok(count);
    }
    let (used, before) = (heap.used(), plain.len());
    let copied = copy_in_both(alloc, trie, plain, "/d", to)?;
    let is_copied = is_made(alloc, heap, trie, plain, copied, used)?;
    if is_copied != (plain.len() > before) {
        return Err(Fail::new("nothing is copied"));
    }
    Ok(count.saturating_add(usize::from(is_copied)))
}

// The same in an empty region. What owns names has few ways out, and calls `drop` there: a drop at the end of a scope is proved anew at each place.
fn steps_in(alloc: Global, heap: &LocalHeap, names: &[String], to: &str) -> Result<usize, Fail> {
    let mut trie = Trie::new(heap)?;
    let mut plain = BTreeMap::new(alloc);
    let count = steps_made(alloc, heap, &mut trie, &mut plain, names, to);
    drop(trie);
    drop(plain);
    count
}

// How often the last step is refused, in ever larger regions, before it is made.
fn refusals(alloc: Global, names: &[String], to: &str, grows_by: usize) -> Result<u64, Fail> {
    let all = names.len().saturating_add(usize::from(!to.is_empty()));
    let mut count = 0u64;
    for blocks in 1..3_000usize {
        let heap = LocalHeap::new(alloc, blocks.saturating_mul(grows_by))?;
        let made = steps_in(alloc, &heap, names, to);
        drop(heap);
        let made = made?;
        if made == all {
            return Ok(count);
        }
        count = count.saturating_add(u64::from(made.saturating_add(1) == all));
    }
    Err(Fail::new("it is always refused"))
}

// The same of names that begin with these bytes: so many parts of 255 bytes, and then these.
fn refusals_of(
    alloc: Global,
    front: &str,
    tails: &[(u64, &str)],
    to: &str,
    grows_by: usize,
) -> Result<u64, Fail> {
    let mut names = Vec::new(alloc);
    for (parts, tail) in tails {
        names.push(long(alloc, front, *parts, tail)?)?;
    }
    refusals(alloc, names.as_slice(), to, grows_by)
}

// 100 bytes.
const FRONT: &str =
    "/aaaaaaaaaaaaaaaaaaaaaaaaaaaaaaaaaaaaaaaaaaaaaaaaaaaaaaaaaaaaaaaaaaaaaaaaaaaaaaaaaaaaaaaaaaaaaaaaaaa";

const LONG: &str = "bbbbbbbbbbbbbbbbbbbbbbbbbbbbbbbbbbbbbbbbb";

// Two ends of names, and how many bytes before them, of each 24, spare the second any memory: a name that ends where a piece of a longer one does, of 24 bytes, needs
// none beside it. 24: it always needs some.
const ENDS: [(&str, &str, usize); 8] = [
    ("b", "c", 24),
    ("c", "b", 24),
    (LONG, "c", 24),
    ("c", LONG, 24),
    ("b", LONG, 24),
    ("", LONG, 24),
    (LONG, "b", 23),
    (LONG, "", 0),
];

#[test]
fn each_growth_of_a_split(rt: HostRuntime) -> Result<(), Fail> {
    for len in [1usize, 22, 23, 24, 25, 47, 48, 100] {
        let front = FRONT.get(..len).unwrap_or_default();
        for (first, second, spared) in ENDS {
            let count = refusals_of(rt.alloc(), front, &[(0, first), (0, second)], "", 16)?;
            assert!(rt; (count > 0) == (len % 24 != spared), "{len}");
        }
    }
    Ok(())
}

// One byte apart, prefix of one another, and longer than a label.
const TAILS: [(u64, &str); 5] = [
    (0, ""),
    (0, "/a"),
    (0, "/aaaaaaaaaaaaaaaaaaaaaaaaaaaaab"),
    (0, "/aaaaaaaaaaaaaaaaaaaaaaaaaaaaac"),
    (1, "/b"),
];

// The copies' names leave those that are there before them, within them and behind them.
#[test]
fn each_growth_of_a_copy(rt: HostRuntime) -> Result<(), Fail> {
    for to in ["/c", "/d1", "/e", "/dddddddddddddddddddddddddddddd", "/d/b"] {
        let count = refusals_of(rt.alloc(), "/d", &TAILS, to, 16)?;
        assert!(rt; count > 20, "{to}");
    }
    Ok(())
}

// `/d`, and eleven names below it by chance.
fn drawn_names(seed: &mut u64, alloc: Global) -> Result<Vec<String>, Fail> {
    let mut names = Vec::new(alloc);
    names.push(String::from_str(alloc, "/d")?)?;
    for number in 0..11u64 {
        let tail = drawn(seed, alloc, 2)?;
        names.push(format!(in alloc; "/d{tail}{number}")?)?;
    }
    Ok(names)
}

// Twelve names by chance, ten times.
#[test]
fn each_growth_of_random_names(rt: HostRuntime) -> Result<(), Fail> {
    let alloc = rt.alloc();
    let mut seed = 24;
    for _ in 0..10 {
        let names = drawn_names(&mut seed, alloc)?;
        let count = refusals(alloc, names.as_slice(), "/e", 16)?;
        assert!(rt; count > 20);
    }
    Ok(())
}

// The longest of these paths have 4,096 bytes, and two of them differ in the last one.
#[test]
fn each_growth_of_the_longest_paths(rt: HostRuntime) -> Result<(), Fail> {
    let alloc = rt.alloc();
    let last_b = format!(in alloc; "/{:a<252}b", "")?;
    let last_c = format!(in alloc; "/{:a<252}c", "")?;
    let (b, c) = ((15u64, last_b.as_str()), (15u64, last_c.as_str()));
    assert!(rt; refusals_of(alloc, "/d", &[(8, "/c"), b], "", 16)? > 80);
    assert!(rt; refusals_of(alloc, "/d", &[b, (8, "/c")], "", 16)? > 0);
    assert!(rt; refusals_of(alloc, "/d", &[(8, ""), b, c], "/e", 256)? > 50);
    Ok(())
}

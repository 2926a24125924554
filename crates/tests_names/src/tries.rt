//! The namespace: ten thousand names beside an ordered map, and a listing that is refused.

ghost use Rattle.std.specs.Prelude.{◌≡◌, ◌↔◌, IsSome, IsErrOf, OnOk, OnErr};
ghost use Rattle.std.specs.FinMap as map;
ghost use Rattle.gfs_types.specs.declared.refusal.Refusal.TheVariants.{Exists};

use crate::both::{are_alike, is_removed_alike, numbered, put_in_both};
use gfs_types::path::{Path, PathFault};
use gfs_types::refusal::Refusal;
use path_trie::trie::Trie;
use std::alloc::{Allocator, Global};
use std::collections::BTreeMap;
use std::test::Fail;

// The caller of CALLING.md.
/// Makes an entry for a new file, unless something stands at its path.
fn create<A: Allocator + Clone>(
    names: &mut Trie<u64, A>,
    path: &Path,
    file: u64,
) -> Result<(), Refusal>
    ensures made { OnOk result (names.new ≡ map.insert names.old path.now file) }
    ensures exists { IsErrOf result Exists ↔ IsSome (map.get names.old path.now) }
    ensures refused { OnErr result (names.new ≡ names.old) }
{
    if names.get(path).is_some() {
        return Err(Refusal::Exists);
    }
    match names.insert(path, file) {
        Ok(()) => Ok(()),
        Err(_) => Err(Refusal::NoMemory),
    }
}

// Ten thousand names in a hundred directories in both maps: a new value at each fifth, then no value at each third, and none in `/d42`.
fn ten_thousand(
    alloc: Global,
    trie: &mut Trie<u64, Global>,
    plain: &mut BTreeMap<String, u64>,
) -> Result<bool, Fail> {
    let mut all = true;
    for value in 0..12_000u64 {
        let number = if value < 10_000 {
            value.wrapping_mul(7_919) % 10_000
        } else {
            (value % 2_000).wrapping_mul(5)
        };
        let text = numbered(alloc, 100, number)?;
        all = put_in_both(alloc, trie, plain, text.as_str(), value)? == Some(true) && all;
    }
    for number in 0..10_000u64 {
        if number % 3 == 0 || number % 100 == 42 {
            let text = numbered(alloc, 100, number)?;
            all = is_removed_alike(alloc, trie, plain, text.as_str())? && all;
        }
    }
    Ok(all)
}

// Whether both say the same of a path: what stands right below it, in order, whether anything does, and whether the path itself counts. No name lies deeper below.
fn says_alike(
    alloc: Global,
    trie: &Trie<u64, Global>,
    plain: &BTreeMap<String, u64>,
    text: &str,
) -> Result<bool, Fail> {
    let path = Path::parse(alloc, text)?;
    let front = format!(in alloc; "{text}/")?;
    let children = trie.children(alloc, &path)?;
    let (mut count, mut is_there, mut all) = (0usize, false, true);
    for (name, value) in plain {
        is_there = is_there || name.as_str() == text;
        if let Some(last) = name.as_str().strip_prefix(front.as_str()) {
            let is_listed = match children.as_slice().get(count) {
                Some(child) => child.name() == last && child.value() == value,
                None => false,
            };
            all = all && is_listed;
            count = count.saturating_add(1);
        }
    }
    all = all && children.len() == count;
    drop(children);
    let has_below = count > 0;
    Ok(
        all && trie.has_below(&path) == has_below
            && trie.has_at_or_below(&path) == (is_there || has_below),
    )
}

// Whether both have the same names and values then, and say the same of a hundred directories, of `/d100`, which isn't there, and of files.
fn likeness(
    alloc: Global,
    trie: &mut Trie<u64, Global>,
    plain: &mut BTreeMap<String, u64>,
) -> Result<bool, Fail> {
    let mut all = ten_thousand(alloc, trie, plain)? && are_alike(alloc, trie, plain)?;
    for number in 0..101u64 {
        let directory = format!(in alloc; "/d{number}")?;
        let file = numbered(alloc, 100, number.saturating_mul(99))?;
        all = says_alike(alloc, trie, plain, directory.as_str())? && all;
        all = says_alike(alloc, trie, plain, file.as_str())? && all;
    }
    Ok(all)
}

// What owns a trie has few ways out, and calls `drop` there: a drop at the end of a scope is proved anew at each place.
#[test]
fn like_a_map_of_ten_thousand(rt: HostRuntime) -> Result<(), Fail> {
    let alloc = rt.alloc();
    let mut trie = Trie::new(alloc)?;
    let mut plain = BTreeMap::new(alloc);
    let is_alike = likeness(alloc, &mut trie, &mut plain);
    let left = trie.len();
    drop(trie);
    drop(plain);
    assert!(rt; is_alike?);
    // 3,334 of them are multiples of three, and 66 more lie in `/d42`
    assert!(rt; left == 6_600, "{left}");
    Ok(())
}

// Makes three names, unless they are there, and gives the values right below the root.
fn root_values(alloc: Global, trie: &mut Trie<u64, Global>) -> Result<[u64; 2], PathFault> {
    for (text, file) in [("/b", 2), ("/a", 1), ("/a/c", 3)] {
        let path = Path::parse(alloc, text)?;
        match create(trie, &path, file) {
            Ok(()) | Err(Refusal::Exists) => {}
            Err(_) => return Err(PathFault::NoMemory),
        }
    }
    let root = Path::parse(alloc, "/")?;
    let children = trie.children(alloc, &root)?;
    let values = match children.as_slice() {
        [first, second] => [*first.value(), *second.value()],
        _ => [0, 0],
    };
    drop(children);
    Ok(values)
}

// It passes too where one allocation is refused, whichever that is (`tools/campaigns/refused`): what is refused goes through when it is made again.
#[test]
fn a_refused_listing_is_made_again(rt: HostRuntime) -> Result<(), Fail> {
    let mut trie = Trie::new(rt.alloc())?;
    let values = match root_values(rt.alloc(), &mut trie) {
        Ok(values) => Ok(values),
        Err(_) => root_values(rt.alloc(), &mut trie),
    };
    drop(trie);
    assert!(rt; values == Ok([1, 2]));
    Ok(())
}

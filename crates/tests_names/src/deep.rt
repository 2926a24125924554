//! Names as deep as paths may be long, and with as many siblings as there are bytes: calls and drops within the stack of a process.

use crate::both::{are_alike, is_removed_alike, put_in_both};
use crate::put::put;
use crate::refused::long;
use label_tree::remove::remove;
use label_tree::tree::Tree;
use path_trie::trie::Trie;
use std::alloc::Global;
use std::collections::BTreeMap;
use std::test::Fail;

// Names that all go on below one of 256 siblings, 110 times: some 28,000.
const LEVELS: u64 = 110;

// A path of so many bytes 255, and this one behind them.
fn path_to(alloc: Global, level: u64, last: u8) -> Result<Vec<u8>, Fail> {
    let mut path = Vec::new(alloc);
    for _ in 0..level {
        path.push(255)?;
    }
    path.push(last)?;
    Ok(path)
}

// The longest names first, since they find few siblings on their way then. Whether all are put.
fn put_siblings(alloc: Global, tree: &mut Tree<u64, Global>) -> Result<bool, Fail> {
    for above in 0..LEVELS {
        let level = LEVELS - 1 - above;
        for last in 0..=255u8 {
            let path = path_to(alloc, level, 255 - last)?;
            if put(tree, &alloc, path.as_slice(), level).is_err() {
                return Ok(false);
            }
        }
    }
    Ok(true)
}

// Whether three of the longest names are found, taken out and put again.
fn are_changed(alloc: Global, tree: &mut Tree<u64, Global>) -> Result<bool, Fail> {
    let mut all = true;
    for last in [0, 97, 255] {
        let path = path_to(alloc, LEVELS - 1, last)?;
        all = tree.get(path.as_slice()).copied() == Some(LEVELS - 1) && all;
        all = remove(tree, path.as_slice()) == Some(LEVELS - 1) && all;
        all = put(tree, &alloc, path.as_slice(), LEVELS - 1).is_ok() && all;
    }
    Ok(all)
}

// Whether all names are taken out, the shortest first.
fn are_all_taken(alloc: Global, tree: &mut Tree<u64, Global>) -> Result<bool, Fail> {
    for level in 0..LEVELS {
        for last in 0..=255u8 {
            let path = path_to(alloc, level, last)?;
            if remove(tree, path.as_slice()) != Some(level) {
                return Ok(false);
            }
        }
    }
    Ok(tree.is_empty())
}

// The longest names are changed while all siblings stand before them, and then all go, the shortest first, and come again.
fn siblings_go_and_come(alloc: Global, tree: &mut Tree<u64, Global>) -> Result<bool, Fail> {
    Ok(
        put_siblings(alloc, tree)?
            && are_changed(alloc, tree)?
            && are_all_taken(alloc, tree)?
            && put_siblings(alloc, tree)?,
    )
}

// The drop at the end is of all of them.
#[test]
fn many_siblings_at_each_level(rt: HostRuntime) -> Result<(), Fail> {
    let mut tree = Tree::new();
    let is_well = siblings_go_and_come(rt.alloc(), &mut tree);
    drop(tree);
    assert!(rt; is_well?);
    Ok(())
}

// Puts a name at each byte of a path, but where a part begins, the longest first. Whether all are put.
fn are_put_at_each_byte(
    alloc: Global,
    trie: &mut Trie<u64, Global>,
    plain: &mut BTreeMap<String, u64>,
    path: &str,
) -> Result<bool, Fail> {
    for at in 0..path.len() {
        let front = path
            .get(..path.len().saturating_sub(at))
            .unwrap_or_default();
        if !front.ends_with('/') && put_in_both(alloc, trie, plain, front, 7)? != Some(true) {
            return Ok(false);
        }
    }
    Ok(true)
}

// How many of these names are left once they were put and listed, and the longest 32 were taken out; 0 where something is wrong.
fn left_at_each_byte(
    alloc: Global,
    trie: &mut Trie<u64, Global>,
    plain: &mut BTreeMap<String, u64>,
    path: &str,
) -> Result<usize, Fail> {
    let mut all = are_put_at_each_byte(alloc, trie, plain, path)? && are_alike(alloc, trie, plain)?;
    for at in 0..32 {
        let front = path
            .get(..path.len().saturating_sub(at))
            .unwrap_or_default();
        all = is_removed_alike(alloc, trie, plain, front)? && all;
    }
    Ok(if all { plain.len() } else { 0 })
}

// The same in a new map, which has few ways out, and is let go by a call: a drop at the end of a scope is proved anew at each place.
fn left_in_new(alloc: Global, path: &str) -> Result<usize, Fail> {
    let mut trie = Trie::new(alloc)?;
    let mut plain = BTreeMap::new(alloc);
    let left = left_at_each_byte(alloc, &mut trie, &mut plain, path);
    drop(trie);
    drop(plain);
    left
}

// Of a path of 4,096 bytes, as deep as names go: 4,080 names.
#[test]
fn the_deepest_names_are_listed(rt: HostRuntime) -> Result<(), Fail> {
    let path = long(rt.alloc(), "", 16, "")?;
    let left = left_in_new(rt.alloc(), path.as_str())?;
    assert!(rt; path.len() == 4_096);
    assert!(rt; left == 4_048, "{left}");
    Ok(())
}

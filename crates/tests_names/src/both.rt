//! A trie beside an ordered map: names by chance, and calls of both.

use gfs_types::no_memory::NoMemory;
use gfs_types::path::Path;
use path_trie::trie::Trie;
use std::alloc::{Allocator, Global};
use std::collections::BTreeMap;
use std::test::Fail;

// Parts that begin alike, of one label and of more.
const PARTS: [&str; 6] = [
    "a",
    "b",
    "aa",
    "ab",
    "aaaaaaaaaaaaaaaaaaaaaaaaaaaaaaaaaaaaaaaa",
    "aaaaaaaaaaaaaaaaaaaaaaaaaaaaaaaaaaaaaaab",
];

// Numbers by chance, each with its seed for the next: a linear congruential generator, of which the upper half is taken.
pub(crate) fn draw(seed: &mut u64, below: u64) -> u64 {
    *seed = seed
        .wrapping_mul(6_364_136_223_846_793_005)
        .wrapping_add(1_442_695_040_888_963_407);
    (*seed >> 32).checked_rem(below).unwrap_or(0)
}

// A path of so many parts.
pub(crate) fn drawn(seed: &mut u64, alloc: Global, parts: u64) -> Result<String, Fail> {
    let mut text = String::new(alloc);
    for _ in 0..parts {
        let at = draw(seed, 6) as usize;
        text.push_str("/")?;
        text.push_str(PARTS.as_slice().get(at).copied().unwrap_or("a"))?;
    }
    Ok(text)
}

// A path of one part, of 1 to 60 bytes of two kinds.
pub(crate) fn drawn_bytes(seed: &mut u64, alloc: Global) -> Result<String, Fail> {
    let most = if draw(seed, 2) == 0 { 5 } else { 60 };
    let mut text = String::from_str(alloc, "/")?;
    for _ in 0..draw(seed, most).saturating_add(1) {
        text.push_str(if draw(seed, 12) == 0 { "b" } else { "a" })?;
    }
    Ok(text)
}

// The path of a file, in one of so many directories.
pub(crate) fn numbered(alloc: Global, directories: u64, number: u64) -> Result<String, Fail> {
    let directory = number.checked_rem(directories).unwrap_or(0);
    Ok(format!(in alloc; "/d{directory}/f{number}")?)
}

// Whether both have the same names and values, in the same order.
pub(crate) fn are_alike<A: Allocator + Clone>(
    alloc: Global,
    trie: &Trie<u64, A>,
    plain: &BTreeMap<String, u64>,
) -> Result<bool, NoMemory> {
    let entries = trie.entries(alloc)?;
    let mut all = entries.len() == plain.len() && trie.len() == plain.len();
    for (entry, (name, value)) in entries.iter().zip(plain) {
        all = all && entry.name() == name.as_str() && entry.value() == value;
    }
    drop(entries);
    Ok(all)
}

// A value for a path in both, which needs no memory where one stands there. Whether it is put; None where another value came back, or one was to be replaced.
pub(crate) fn put_in_both<A: Allocator + Clone>(
    alloc: Global,
    trie: &mut Trie<u64, A>,
    plain: &mut BTreeMap<String, u64>,
    text: &str,
    value: u64,
) -> Result<Option<bool>, Fail> {
    let path = Path::parse(alloc, text)?;
    let is_put = match trie.insert(&path, value) {
        Ok(()) => Some(true),
        Err((back, _)) => {
            if back == value && !plain.contains_key(text) {
                Some(false)
            } else {
                None
            }
        }
    };
    drop(path);
    if is_put == Some(true) {
        plain.insert(String::from_str(alloc, text)?, value)?;
    }
    Ok(is_put)
}

// Whether the same value, or none, is taken out of both.
pub(crate) fn is_removed_alike<A: Allocator + Clone>(
    alloc: Global,
    trie: &mut Trie<u64, A>,
    plain: &mut BTreeMap<String, u64>,
    text: &str,
) -> Result<bool, Fail> {
    let path = Path::parse(alloc, text)?;
    Ok(trie.remove(&path) == plain.remove(text))
}

// A copy of what lies at a path and below it, at another. Whether it is made; None where something stands there.
fn copy_in_trie<A: Allocator + Clone>(
    alloc: Global,
    trie: &mut Trie<u64, A>,
    from: &str,
    to: &str,
) -> Result<Option<bool>, Fail> {
    let from = Path::parse(alloc, from)?;
    let to = Path::parse(alloc, to)?;
    if trie.has_at_or_below(&to) {
        return Ok(None);
    }
    Ok(Some(trie.copy_below(&from, &to).is_ok()))
}

// The names of the copies, with their values.
fn copies_of(
    alloc: Global,
    plain: &BTreeMap<String, u64>,
    from: &str,
    to: &str,
) -> Result<Vec<(String, u64)>, Fail> {
    let mut copies = Vec::new(alloc);
    for (name, value) in plain {
        if let Some(rest) = name.as_str().strip_prefix(from) {
            if rest.is_empty() || rest.starts_with('/') {
                copies.push((format!(in alloc; "{to}{rest}")?, *value))?;
            }
        }
    }
    Ok(copies)
}

// The same copy in both, which have something there or not alike.
pub(crate) fn copy_in_both<A: Allocator + Clone>(
    alloc: Global,
    trie: &mut Trie<u64, A>,
    plain: &mut BTreeMap<String, u64>,
    from: &str,
    to: &str,
) -> Result<Option<bool>, Fail> {
    let is_there = !copies_of(alloc, plain, to, to)?.is_empty();
    let copied = copy_in_trie(alloc, trie, from, to)?;
    if is_there != copied.is_none() {
        return Err(Fail::new("only one of both has something there"));
    }
    if copied == Some(true) {
        for (name, value) in copies_of(alloc, plain, from, to)? {
            plain.insert(name, value)?;
        }
    }
    Ok(copied)
}

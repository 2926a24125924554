//! The names of a tree in order, as a list.

ghost use Rattle.std.specs.Prelude.{◌≡◌, ◌+◌, ◌++◌, ◌∷◌, [], IsTrue, OnOk, drop, length, option_copied};
ghost use Rattle.std.specs.List.{list_any};
ghost use Rattle.gfs_types.specs.Paths.{is_slash};
ghost use Rattle.label_tree.specs.Entries.{BeginsFrom, own, under};
ghost use Rattle.label_tree.specs.Behind.{behind};
ghost use Rattle.path_trie.specs.Texts.{are_texts};
ghost use Rattle.path_trie.specs.Walks.{name_in, is_past, wanted};

use crate::child::Named;
use crate::parts::{is_child, last_part};
use gfs_types::no_memory::NoMemory;
use label_tree::place::place;
use label_tree::tree::Tree;
use std::alloc::Allocator;

// The name of a path in the list, or None where the list doesn't have it.
fn name_in<'a>(directory: Option<&str>, path: &'a str) -> Option<&'a str>
    ensures { option_copied result ≡ name_in (option_copied directory.entry) path.now }
{
    match directory {
        None => Some(path),
        Some(directory) if is_child(directory, path) => Some(last_part(path)),
        Some(_) => None,
    }
}

fn has_slash(bytes: &[u8]) -> bool
    ensures { result ≡ list_any is_slash bytes.now }
{
    bytes.iter().any(|c| *c == b'/')
}

fn has_slash_past(directory: &str, front: &[u8]) -> bool
    ensures { result ≡ list_any is_slash (drop (length directory.now + 1) front.now) }
{
    if front.len() <= directory.len() {
        return false;
    }
    let (_, rest) = front.split_at(directory.len() + 1);
    has_slash(rest)
}

// Whether what begins with this front lies too deep for the list.
fn is_past(directory: Option<&str>, front: &[u8]) -> bool
    ensures { result ≡ is_past (option_copied directory.entry) front.now }
{
    match directory {
        None => false,
        Some(directory) => has_slash_past(directory, front),
    }
}

fn push_named<'a, V, B: Allocator + Clone>(
    alloc: &B,
    found: &mut Vec<Named<'a, V, B>, B>,
    name: &str,
    value: &'a V,
) -> Result<(), NoMemory>
    ensures { OnOk result (found.new.items ≡ found.old.items ++ (name.now, value.now) ∷ []) }
{
    let name = String::from_str(alloc.clone()?, name)?;
    found.push(Named::new(name, value))?;
    Ok(())
}

// Adds what stands at a path, where the list has it.
fn add_own<'a, V: Drop, B: Allocator + Clone>(
    alloc: &B,
    found: &mut Vec<Named<'a, V, B>, B>,
    directory: Option<&str>,
    path: &[u8],
    value: &'a Option<V>,
) -> Result<(), NoMemory>
    requires { IsTrue (are_texts (under path.now (own value.now))) }
    ensures { OnOk result (found.new.items ≡ found.old.items ++ wanted (option_copied directory.entry) (under path.now (own value.now))) }
{
    let Some(value) = value else {
        return Ok(());
    };
    let Ok(text) = str::from_utf8(path) else {
        unreachable!()
    };
    match name_in(directory, text) {
        Some(name) => push_named(alloc, found, name, value),
        None => Ok(()),
    }
}

/// Adds the names of a tree that lies behind a front: all, or those of a directory's children.
pub(crate) fn add_names<'a, V: Drop, A: Allocator + Clone, B: Allocator + Clone>(
    alloc: &B,
    found: &mut Vec<Named<'a, V, B>, B>,
    directory: Option<&str>,
    front: &mut Vec<u8, B>,
    tree: &'a Tree<V, A>,
) -> Result<(), NoMemory>
    requires { IsTrue (are_texts (under front.old.items tree.now)) }
    ensures found { OnOk result (found.new.items ≡ found.old.items ++ wanted (option_copied directory.entry) (under front.old.items tree.now)) }
    ensures front { OnOk result (front.new.items ≡ front.old.items) }
{
    if is_past(directory, front.as_slice()) {
        return Ok(());
    }
    let len = front.len();
    let mut here = tree;
    while let Some(node) = here.top() {
        front.extend_from_slice(node.label.as_slice())?;
        add_own(alloc, found, directory, front.as_slice(), &node.value)?;
        add_names(alloc, found, directory, front, &node.below)?;
        front.truncate(len);
        here = &node.next;
    }
    Ok(())
}

/// Adds the names that begin with a front: all, or those of a directory's children.
pub(crate) fn add_behind<'a, V: Drop, A: Allocator + Clone, B: Allocator + Clone>(
    alloc: &B,
    found: &mut Vec<Named<'a, V, B>, B>,
    directory: Option<&str>,
    front: &mut Vec<u8, B>,
    tree: &'a Tree<V, A>,
) -> Result<(), NoMemory>
    requires front { BeginsFrom 0 front.old.items }
    requires texts { IsTrue (are_texts (under front.old.items (behind front.old.items tree.now))) }
    ensures { OnOk result (found.new.items ≡ found.old.items ++ wanted (option_copied directory.entry) (under front.old.items (behind front.old.items tree.now))) }
{
    let Some((rest, node)) = place(tree, front.as_slice()) else {
        return Ok(());
    };
    front.extend_from_slice(rest)?;
    add_own(alloc, found, directory, front.as_slice(), &node.value)?;
    add_names(alloc, found, directory, front, &node.below)?;
    Ok(())
}

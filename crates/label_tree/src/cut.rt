//! A node whose label is cut where a path leaves it.

ghost use Rattle.std.specs.Prelude.{◌≡◌, ◌≢◌, ◌≤◌, ◌<◌, ℕ, List, [], ◌∷◌, None, length, take, IfOk, IfErr, OnOk, OnErr};
ghost use Rattle.label_tree.specs.Fronts.{first_byte};
ghost use Rattle.label_tree.specs.Turns.{IsCut};
ghost use Rattle.label_tree.specs.Entries.{BeginsFrom, find_path, put_path};
ghost use Rattle.label_tree.specs.Nodes.{says, IsWhole, IsLoose, IsBranch};

use crate::front::first_byte;
use crate::label::{LABEL_LEN, Label};
use crate::node::TrieNode;
use crate::tidy::tidied;
use crate::tree::{Boxed, Link, Tree};
use std::alloc::{AllocError, Allocator};
use std::mem;

// A node with this label alone.
fn bare<V: Drop, A: Allocator + Clone>(alloc: &A, label: &[u8]) -> Result<Boxed<V, A>, AllocError>
    requires { length label.now ≤ 24 }
    ensures { IfOk result (λ n. n.value ≡ record { label = label.now; value = None; below = []; next = [] }) }
{
    let node = TrieNode {
        label: Label::of(label),
        value: None,
        below: Tree::new(),
        next: Tree::new(),
    };
    Ok(Box::new(alloc.clone()?, node)?)
}

/// A node that says this path alone, in as many pieces as it takes.
pub fn branch<V: Drop, A: Allocator + Clone>(
    alloc: &A,
    path: &[u8],
    value: V,
) -> Result<Boxed<V, A>, (V, AllocError)>
    requires { BeginsFrom 0 path.now }
    ensures branch { IfOk result (λ n. IsBranch n.value path.now value) }
    ensures back { IfErr result (λ e. e.0 ≡ value) }
{
    let (piece, rest) = path.split_at(path.len().min(LABEL_LEN));
    let Ok(mut node) = bare(alloc, piece) else {
        return Err((value, AllocError));
    };
    if rest.is_empty() {
        node.set_value(Some(value));
    } else {
        let below = branch(alloc, rest, value)?;
        node.set_below(Tree::close(Link::More(below)));
    }
    Ok(node)
}

// Moves what a node says at its end and below to a node of its label's second part.
fn halves<V: Drop, A: Allocator + Clone>(
    mut node: Boxed<V, A>,
    mut tail: Boxed<V, A>,
    count: usize,
) -> (Boxed<V, A>, Boxed<V, A>)
    ensures front { result.0.value ≡ record { label = take count node.value.label; value = None; below = []; next = node.value.next } }
    ensures tail { result.1.value ≡ record { label = tail.value.label; value = node.value.value; below = node.value.below; next = tail.value.next } }
{
    node.label.truncate(count);
    tail.value = node.value.take();
    tail.below = mem::replace(&mut node.below, Tree::new());
    (node, tail)
}

// What goes on behind a cut, and a branch beside it.
fn pair<V: Drop, A: Allocator + Clone>(mut tail: Boxed<V, A>, mut leaf: Boxed<V, A>) -> Tree<V, A>
    requires tail { IsLoose tail.value }
    requires tail_alone { tail.value.next ≡ [] }
    requires leaf { IsWhole leaf.value }
    requires leaf_alone { leaf.value.next ≡ [] }
    requires apart { first_byte tail.value.label ≢ first_byte leaf.value.label }
    ensures { (path : List ℕ) (value : V) → IsBranch leaf.value path value → result ≡ put_path path value (says tail.value) }
{
    if first_byte(leaf.label.as_slice()) < first_byte(tail.label.as_slice()) {
        leaf.set_next(tidied(tail));
        return Tree::close(Link::More(leaf));
    }
    tail.set_next(Tree::close(Link::More(leaf)));
    tidied(tail)
}

/// Puts the value at a path that leaves the node's label after so many bytes. All growths come first, then the cut.
pub fn split<V: Drop, A: Allocator + Clone>(
    node: Boxed<V, A>,
    alloc: &A,
    count: usize,
    path: &[u8],
    value: V,
) -> (Tree<V, A>, Result<(), (V, AllocError)>)
    requires whole { IsWhole node.value }
    requires cut { IsCut node.value.label path.now count }
    ensures ok { OnOk result.1 (result.0 ≡ put_path path.now value (says node.value)) }
    ensures err { OnErr result.1 (result.0 ≡ says node.value) }
    ensures back { IfErr result.1 (λ e. e.0 ≡ value) }
    ensures absent { find_path path.now (says node.value) ≡ None }
{
    let Ok(tail) = bare(alloc, &node.label.as_slice()[count..]) else {
        return (Tree::close(Link::More(node)), Err((value, AllocError)));
    };
    let rest = &path[count..];
    if rest.is_empty() {
        let (mut front, tail) = halves(node, tail, count);
        front.set_value(Some(value));
        front.set_below(tidied(tail));
        return (Tree::close(Link::More(front)), Ok(()));
    }
    let leaf = match branch(alloc, rest, value) {
        Ok(leaf) => leaf,
        Err(back) => return (Tree::close(Link::More(node)), Err(back)),
    };
    let (mut front, tail) = halves(node, tail, count);
    front.set_below(pair(tail, leaf));
    (tidied(front), Ok(()))
}

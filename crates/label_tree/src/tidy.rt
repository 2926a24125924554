//! Nodes that say nothing of their own.

ghost use Rattle.std.specs.Prelude.{◌≡◌, ◌≤◌, ◌+◌, ◌++◌, ◌&&◌, nat_le, None, length};
ghost use Rattle.label_tree.specs.Entries.{level, is_nothing};
ghost use Rattle.label_tree.specs.Nodes.{says, IsWhole, IsLoose};

use crate::label::LABEL_LEN;
use crate::node::TrieNode;
use crate::tree::{Boxed, Link, Tree};
use std::alloc::Allocator;
use std::mem;

// Takes what a node says at its end and below it from the only node there, with its label.
fn absorb<V: Drop, T: Drop>(node: &mut TrieNode<V, T>, child: TrieNode<V, T>)
    requires { length node.old.label + length child.label ≤ 24 }
    ensures { node.new ≡ record { label = node.old.label ++ child.label; value = child.value; below = child.below; next = node.old.next } }
{
    let TrieNode {
        label,
        value,
        below,
        ..
    } = child;
    node.label.extend(label.as_slice());
    node.set_value(value);
    node.set_below(below);
}

// Whether a node below is alone, and its label has room beside this one.
fn has_room<V: Drop, A: Allocator + Clone>(
    node: &TrieNode<V, Tree<V, A>>,
    child: &TrieNode<V, Tree<V, A>>,
) -> bool
    ensures { result ≡ (is_nothing child.now.next && nat_le (length node.now.label + length child.now.label) 24) }
{
    child.next.is_empty() && node.label.as_slice().len() + child.label.as_slice().len() <= LABEL_LEN
}

// A node without a value, and the first node below it, as one where that one is alone and has room.
fn joined<V: Drop, A: Allocator + Clone>(mut node: Boxed<V, A>, child: Boxed<V, A>) -> Tree<V, A>
    requires node { IsLoose node.value }
    requires nothing { node.value.value ≡ None }
    requires child { IsWhole child.value }
    ensures { result ≡ level node.value.label None (says child.value) node.value.next }
{
    if has_room(&node, &child) {
        absorb(&mut node, Box::into_inner(child));
        return Tree::close(Link::More(node));
    }
    node.set_below(Tree::close(Link::More(child)));
    Tree::close(Link::More(node))
}

/// The same names: a node without a value is left out where nothing is below it, or joined with the only node there where that one has room. It needs no memory.
pub fn tidied<V: Drop, A: Allocator + Clone>(mut node: Boxed<V, A>) -> Tree<V, A>
    requires { IsLoose node.value }
    ensures { result ≡ says node.value }
{
    if node.value.is_some() {
        return Tree::close(Link::More(node));
    }
    match mem::replace(&mut node.below, Tree::new()).open() {
        Link::End => {
            let TrieNode { next, .. } = Box::into_inner(node);
            next
        }
        Link::More(child) => joined(node, child),
    }
}

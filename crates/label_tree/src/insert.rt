//! A name that is put in.

ghost use Rattle.std.specs.Prelude.{◌≡◌, ◌<◌, None, IfErr, OnOk, OnErr};
ghost use Rattle.label_tree.specs.Fronts.{first_byte};
ghost use Rattle.label_tree.specs.Entries.{BeginsFrom, find_path, put_path};
ghost use Rattle.label_tree.specs.Nodes.{says, IsWhole};

use crate::cut::{branch, split};
use crate::front::{first_byte, turn};
use crate::siblings::{append, cut_before};
use crate::tidy::tidied;
use crate::tree::{Boxed, Link, Tree};
use crate::turn::Turn;
use std::alloc::{AllocError, Allocator};
use std::mem;

// Puts the value at a path that comes before all names of the node.
fn in_front<V: Drop, A: Allocator + Clone>(
    node: Boxed<V, A>,
    alloc: &A,
    path: &[u8],
    value: V,
) -> (Tree<V, A>, Result<(), (V, AllocError)>)
    requires whole { IsWhole node.value }
    requires path { BeginsFrom 0 path.now }
    requires before { first_byte path.now < first_byte node.value.label }
    ensures ok { OnOk result.1 (result.0 ≡ put_path path.now value (says node.value)) }
    ensures err { OnErr result.1 (result.0 ≡ says node.value) }
    ensures back { IfErr result.1 (λ e. e.0 ≡ value) }
    ensures absent { find_path path.now (says node.value) ≡ None }
{
    match branch(alloc, path, value) {
        Ok(mut first) => {
            first.set_next(Tree::close(Link::More(node)));
            (Tree::close(Link::More(first)), Ok(()))
        }
        Err(back) => (Tree::close(Link::More(node)), Err(back)),
    }
}

/// Puts the value at the path, in place of what stands there. AllocError hands the value back and changes nothing.
pub fn insert<V: Drop, A: Allocator + Clone>(
    tree: &mut Tree<V, A>,
    alloc: &A,
    path: &[u8],
    value: V,
) -> Result<(), (V, AllocError)>
    requires { BeginsFrom 0 path.now }
    ensures ok { OnOk result (tree.new ≡ put_path path.now value tree.old) }
    ensures err { OnErr result (tree.new ≡ tree.old) }
    ensures back { IfErr result (λ e. e.0 ≡ value) }
    ensures absent { OnErr result (find_path path.now tree.old ≡ None) }
{
    let Link::More(mut node) = mem::replace(tree, Tree::new()).open() else {
        let only = branch(alloc, path, value)?;
        *tree = Tree::close(Link::More(only));
        return Ok(());
    };
    let label = node.label.as_slice();
    let behind = label.len();
    match turn(label, path) {
        Turn::Before => {
            let (changed, done) = in_front(node, alloc, path, value);
            *tree = changed;
            return done;
        }
        Turn::Cut(count) => {
            let (changed, done) = split(node, alloc, count, path, value);
            *tree = changed;
            return done;
        }
        Turn::After => {
            let done = insert(&mut node.next, alloc, path, value);
            *tree = Tree::close(Link::More(node));
            return done;
        }
        Turn::Through => {}
    }
    if behind == path.len() {
        node.set_value(Some(value));
        *tree = Tree::close(Link::More(node));
        return Ok(());
    }
    // Below, no sibling is left before the place, so that the recursion is no deeper than the path is long.
    let rest = &path[behind..];
    let byte = first_byte(rest);
    let mut below = mem::replace(&mut node.below, Tree::new());
    let mut later = cut_before(&mut below, byte);
    let done = insert(&mut later, alloc, rest, value);
    append(&mut below, byte, later);
    node.set_below(below);
    *tree = tidied(node);
    done
}

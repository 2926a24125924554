//! Siblings that are taken apart at a byte, and put together.

ghost use Rattle.std.specs.Prelude.{◌≡◌, ◌++◌};
ghost use Rattle.label_tree.specs.Entries.{AllFrom};
ghost use Rattle.label_tree.specs.Siblings.{AllBelow};

use crate::front::first_byte;
use crate::tree::{Link, Tree};
use std::alloc::Allocator;
use std::mem;

/// Leaves the siblings that begin with smaller bytes, and gives the others.
pub fn cut_before<V: Drop, A: Allocator + Clone>(tree: &mut Tree<V, A>, byte: u8) -> Tree<V, A>
    ensures both { tree.old ≡ tree.new ++ result }
    ensures before { AllBelow byte tree.new }
    ensures from { AllFrom byte result }
{
    let Link::More(mut node) = mem::replace(tree, Tree::new()).open() else {
        return Tree::new();
    };
    if first_byte(node.label.as_slice()) >= byte {
        return Tree::close(Link::More(node));
    }
    let rest = cut_before(&mut node.next, byte);
    *tree = Tree::close(Link::More(node));
    rest
}

/// Puts siblings that begin with this byte or a larger one behind those that begin with smaller ones.
pub fn append<V: Drop, A: Allocator + Clone>(tree: &mut Tree<V, A>, byte: u8, after: Tree<V, A>)
    requires before { AllBelow byte tree.old }
    requires from { AllFrom byte after }
    ensures { tree.new ≡ tree.old ++ after }
{
    let Link::More(mut node) = mem::replace(tree, Tree::new()).open() else {
        *tree = after;
        return;
    };
    append(&mut node.next, byte, after);
    *tree = Tree::close(Link::More(node));
}

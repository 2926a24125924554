//! A name that is taken out.

ghost use Rattle.std.specs.Prelude.{◌≡◌};
ghost use Rattle.label_tree.specs.Entries.{find_path, without_path};

use crate::front::{first_byte, rest_behind};
use crate::siblings::{append, cut_before};
use crate::tidy::tidied;
use crate::tree::{Link, Tree};
use std::alloc::Allocator;
use std::mem;

/// Takes what stands at the path, and joins what can be joined. It needs no memory.
pub fn remove<V: Drop, A: Allocator + Clone>(tree: &mut Tree<V, A>, path: &[u8]) -> Option<V>
    ensures value { result ≡ find_path path.now tree.old }
    ensures rest { tree.new ≡ without_path path.now tree.old }
{
    let Link::More(mut node) = mem::replace(tree, Tree::new()).open() else {
        return None;
    };
    let Some(rest) = rest_behind(node.label.as_slice(), path) else {
        let taken = remove(&mut node.next, path);
        *tree = Tree::close(Link::More(node));
        return taken;
    };
    if rest.is_empty() {
        let taken = node.value.take();
        *tree = tidied(node);
        return taken;
    }
    // Below, no sibling is left before the one that is looked for, so that the recursion is no deeper than the path is long.
    let byte = first_byte(rest);
    let mut below = mem::replace(&mut node.below, Tree::new());
    let mut later = cut_before(&mut below, byte);
    let taken = remove(&mut later, rest);
    append(&mut below, byte, later);
    node.set_below(below);
    *tree = tidied(node);
    taken
}

//! What goes on behind a front.

ghost use Rattle.std.specs.Prelude.{◌≡◌, ◌++◌, not};
ghost use Rattle.gfs_types.specs.Paths.{root};
ghost use Rattle.label_tree.specs.Entries.{BeginsFrom, is_nothing};
ghost use Rattle.label_tree.specs.Behind.{behind, has_more};

use label_tree::place::place;
use label_tree::tree::Tree;
use std::alloc::Allocator;

/// Whether a name begins with these bytes and has more.
pub fn has_more<V: Drop, A: Allocator + Clone>(tree: &Tree<V, A>, front: &[u8]) -> bool
    requires { BeginsFrom 0 front.now }
    ensures { result ≡ has_more front.now tree.now }
{
    match place(tree, front) {
        Some((rest, node)) => !rest.is_empty() || !node.below.is_empty(),
        None => false,
    }
}

/// Whether a name begins with these bytes and a slash.
pub fn has_slash_behind<V: Drop, A: Allocator + Clone>(tree: &Tree<V, A>, front: &[u8]) -> bool
    requires { BeginsFrom 0 front.now }
    ensures { result ≡ not (is_nothing (behind (front.now ++ root) tree.now)) }
{
    let Some((rest, node)) = place(tree, front) else {
        return false;
    };
    match rest {
        [] => place(&node.below, b"/").is_some(),
        [first, ..] => *first == b'/',
    }
}

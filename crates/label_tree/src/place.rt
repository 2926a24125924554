//! Where a front leads.

ghost use Rattle.std.specs.Prelude.{◌≡◌, ◌++◌, [], MatchOption};
ghost use Rattle.label_tree.specs.Entries.{BeginsFrom, under, own};
ghost use Rattle.label_tree.specs.Nodes.{IsWhole};
ghost use Rattle.label_tree.specs.Behind.{behind};

use crate::front::rest_behind;
use crate::node::TrieNode;
use crate::tree::Tree;
use std::alloc::Allocator;

/// The node in or before which these bytes end, with what its label has behind them: all names that begin with them go on there. None where no name does.
pub fn place<'a, V: Drop, A: Allocator + Clone>(
    tree: &'a Tree<V, A>,
    front: &[u8],
) -> Option<(&'a [u8], &'a TrieNode<V, Tree<V, A>>)>
    requires { BeginsFrom 0 front.now }
    ensures names { MatchOption result (behind front.now tree.now ≡ []) (λ p. behind front.now tree.now ≡ under p.0.now (own p.1.now.value ++ p.1.now.below)) }
    ensures whole { MatchOption result (behind front.now tree.now ≡ []) (λ p. IsWhole p.1.now) }
{
    let mut here = tree;
    let mut rest = front;
    while let Some(node) = here.top() {
        let label = node.label.as_slice();
        if let Some(more) = rest_behind(rest, label) {
            return Some((more, node));
        }
        if let Some(more) = rest_behind(label, rest) {
            rest = more;
            here = &node.below;
        } else {
            here = &node.next;
        }
    }
    None
}

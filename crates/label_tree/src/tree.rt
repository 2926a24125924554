//! Siblings, and what lies below them.

ghost use Rattle.std.specs.Prelude.{◌≡◌, [], MatchOption, option_copied};
ghost use Rattle.label_tree.specs.Entries.{find_path, is_nothing, bytes_in};
ghost use Rattle.label_tree.specs.Nodes.{says, IsWhole, entries_of, IsInOrder};

use crate::front::rest_behind;
use crate::node::TrieNode;
use std::alloc::Allocator;
use std::marker::Model;

/// Siblings, by the first byte of their labels. Seen as the list of all their names with what stands there, in the order of the names' bytes.
#[cycle(trie)]
pub struct Tree<V, A: Allocator> {
    top: Link<V, A>,
}

/// The first sibling, or none.
#[cycle(trie)]
#[derive(Drop)]
pub enum Link<V, A: Allocator> {
    End,
    More(Box<TrieNode<V, Tree<V, A>>, A>),
}

impl<V, A: Allocator> Model for Tree<V, A> {
    ghost use Rattle.std.specs.Prelude.{List, ℕ};
    ghost use Rattle.std.specs.Coded.{coded×, coded_list, coded_ℕ};

    ghost Value = { List (List ℕ × V) };

    ghost coded = { coded_list (coded× (coded_list coded_ℕ) V.code) };

    ghost use Rattle.label_tree.specs.Entries.{bytes_in};
    ghost use Rattle.label_tree.specs.Nodes.{entries_of, IsInOrder};

    ghost view = { λ t. entries_of t.top };

    ghost invariant = { λ t. IsInOrder t.top };

    ghost size = { bytes_in };

    ghost use Rattle.label_tree.specs.Falls.{deep_le_bytes};

    ghost size_decreases = { λ a h. deep_le_bytes A.Allocator a.top h };
}

// Goes from sibling to sibling by a loop, so that it is no deeper than the longest name.
impl<V: Drop, A: Allocator> Drop for Tree<V, A> {
    fn drop(self) {
        let Tree { mut top } = self;
        loop {
            match top {
                Link::End => return,
                Link::More(node) => {
                    let TrieNode { next, .. } = Box::into_inner(node);
                    top = next.open();
                }
            }
        }
    }
}

/// A node on the heap.
pub type Boxed<V, A> = Box<TrieNode<V, Tree<V, A>>, A>;

impl<V: Drop, A: Allocator> Tree<V, A> {
    /// The first node.
    pub fn open(self) -> Link<V, A>
        ensures says { entries_of result ≡ self }
        ensures order { IsInOrder result }
    {
        let Tree { top } = self;
        top
    }
}

impl<V: Drop, A: Allocator + Clone> Tree<V, A> {
    /// No names.
    pub fn new() -> Self
        ensures { result ≡ [] }
    {
        Tree { top: Link::End }
    }

    /// What begins with this node.
    pub fn close(top: Link<V, A>) -> Self
        requires { IsInOrder top }
        ensures { result ≡ entries_of top }
    {
        Tree { top }
    }

    /// Whether it has no names.
    pub fn is_empty(&self) -> bool
        ensures { result ≡ is_nothing self.now }
    {
        matches!(&self.top, Link::End)
    }

    /// The first node, to be read.
    pub fn top(&self) -> Option<&TrieNode<V, Tree<V, A>>>
        ensures { MatchOption result (self.now ≡ []) (λ n. (self.now ≡ says n.now) × IsWhole n.now) }
    {
        match &self.top {
            Link::End => None,
            Link::More(node) => Some(node),
        }
    }

    /// What stands at the path.
    pub fn get(&self, path: &[u8]) -> Option<&V>
        ensures { option_copied result ≡ find_path path.now self.now }
    {
        let mut here = self;
        let mut rest = path;
        while let Link::More(node) = &here.top {
            if let Some(more) = rest_behind(node.label.as_slice(), rest) {
                if more.is_empty() {
                    return node.value.as_ref();
                }
                rest = more;
                here = &node.below;
            } else {
                here = &node.next;
            }
        }
        None
    }
}

//! A value put at a path.

ghost use Rattle.std.specs.Prelude.{◌≡◌, IfErr};

use label_tree::insert::insert;
use label_tree::tree::Tree;
use std::alloc::{AllocError, Allocator};

/// Puts a value at a path, or hands it back where the path is empty or memory is refused.
pub fn put<A: Allocator + Clone>(
    tree: &mut Tree<u64, A>,
    alloc: &A,
    path: &[u8],
    value: u64,
) -> Result<(), (u64, AllocError)>
    ensures { IfErr result (λ e. e.0 ≡ value) }
{
    if path.is_empty() {
        return Err((value, AllocError));
    }
    insert(tree, alloc, path, value)
}

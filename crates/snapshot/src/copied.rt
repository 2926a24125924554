//! The names that a snapshot copies (section 3.4).

ghost use Rattle.std.specs.Prelude.{◌≡◌, ◌++◌, true, false, drop, length, IfOk, MatchOption};
ghost use Rattle.gfs_types.specs.Paths.{is_at_or_below};
ghost use Rattle.relaxed_file.specs.Names.{copied_entries};
ghost use Rattle.snapshot.specs.Copies.{moved};

use gfs_types::lists::Text;
use gfs_types::no_memory::NoMemory;
use gfs_types::path::Path;
use namespace::name_kind::NameKind;
use namespace::node::{NameNode, Namespace};
use path_trie::child::Child;
use path_trie::parts::is_at_or_below;
use std::alloc::{Allocator, Global};

/// What a copy of `from` at `to` adds, in the order of the paths, each file still under the id that it is copied from. A name may be no
/// path.
pub fn copied_names<A: Allocator + Clone>(
    alloc: Global,
    names: &Namespace<A>,
    from: &Path,
    to: &Path,
) -> Result<Vec<(Text, NameNode)>, NoMemory>
    ensures { IfOk result (λ copies. copies.items ≡ copied_entries names.now from.now to.now) }
{
    let entries = names.entries(alloc)?;
    moved_names(alloc, entries, from.as_str(), to.as_str())
}

// Those of the names that lie at `from` or below it, moved to `to`.
fn moved_names(
    alloc: Global,
    names: Vec<Child<'_, NameNode>>,
    from: &str,
    to: &str,
) -> Result<Vec<(Text, NameNode)>, NoMemory>
    ensures { IfOk result (λ found. found.items ≡ moved from.now to.now names.entry.items) }
{
    let mut found = Vec::new(alloc);
    for name in names {
        if let Some(rest) = behind(from, name.name()) {
            let path = joined(alloc, to, rest)?;
            found.push((path, equal_node(name.value())))?;
        }
    }
    Ok(found)
}

// What a path has behind one that it lies at or below, or None where it doesn't.
fn behind<'a>(top: &str, path: &'a str) -> Option<&'a str>
    ensures { MatchOption result (is_at_or_below top.now path.now ≡ false) (λ rest. (is_at_or_below top.now path.now ≡ true) × (rest.now ≡ drop (length top.now) path.now)) }
{
    if !is_at_or_below(top, path) {
        return None;
    }
    path.strip_prefix(top)
}

fn joined(alloc: Global, front: &str, rest: &str) -> Result<Text, NoMemory>
    ensures { IfOk result (λ path. path ≡ front.now ++ rest.now) }
{
    let mut path = String::from_str(alloc, front)?;
    path.push_str(rest)?;
    Ok(Text::new(path))
}

fn equal_node(node: &NameNode) -> NameNode
    ensures { result ≡ node.now }
{
    match node.kind() {
        NameKind::Dir => NameNode::dir(),
        NameKind::File(id) => NameNode::file(id),
    }
}

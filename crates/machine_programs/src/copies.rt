//! What a snapshot copies (section 3.4 of the Google File System paper).

ghost use Rattle.std.specs.Prelude.{◌≡◌, ◌++◌, true, false, drop, length, nat_lt, MatchOption, IfOk};
ghost use Rattle.std.specs.List.{list_any};
ghost use Rattle.gfs_types.specs.Paths.{is_at_or_below};
ghost use Rattle.machine_programs.specs.NameTables.{copies_of};

use crate::name::Name;
use gfs_types::lists::Text;
use gfs_types::no_memory::NoMemory;
use path_trie::parts::is_at_or_below;
use std::alloc::Global;

/// What stands at `from` and below it, moved to `to`.
pub(crate) fn copies_of(
    alloc: Global,
    names: &[Name],
    from: &str,
    to: &str,
) -> Result<Vec<Name>, NoMemory>
    ensures { IfOk result (λ v. v.items ≡ copies_of from.now to.now names.now) }
{
    let mut copies = Vec::new(alloc);
    for name in names {
        if let Some(rest) = rest_behind(from, name.path()) {
            copies.push(Name::new(joined(alloc, to, rest)?, name.kind()))?;
        }
    }
    Ok(copies)
}

/// Whether some name is longer than a path may be.
pub(crate) fn is_some_too_long(names: &[Name]) -> bool
    ensures { result ≡ list_any (λ e. nat_lt 4096 (length e.0)) names.now }
{
    names.iter().any(|name| name.path().len() > 4096)
}

/// What a path has behind one that it lies at or below, or None where it doesn't.
fn rest_behind<'a>(top: &str, path: &'a str) -> Option<&'a str>
    ensures { MatchOption result (is_at_or_below top.now path.now ≡ false) (λ rest. (is_at_or_below top.now path.now ≡ true) × (rest.now ≡ drop (length top.now) path.now)) }
{
    if !is_at_or_below(top, path) {
        return None;
    }
    path.strip_prefix(top)
}

fn joined(alloc: Global, front: &str, rest: &str) -> Result<Text, NoMemory>
    ensures { IfOk result (λ t. t ≡ front.now ++ rest.now) }
{
    let mut text = String::from_str(alloc, front)?;
    text.push_str(rest)?;
    Ok(Text::new(text))
}

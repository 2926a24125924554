//! What List answers: the last parts of the names right below a directory, in order.

ghost use Rattle.std.specs.Prelude.{◌≡◌, map, filter, IfOk};
ghost use Rattle.gfs_types.specs.Paths.{is_child};
ghost use Rattle.relaxed_file.specs.Names.{listed};

use crate::name::Name;
use crate::name_kind::PlainNameKind;
use gfs_types::lists::{NameList, Text};
use gfs_types::no_memory::NoMemory;
use path_trie::parts::{is_child, last_part};
use std::alloc::Global;

pub(crate) fn listing_of(
    alloc: Global,
    names: &[Name],
    directory: &str,
) -> Result<NameList, NoMemory>
    ensures { IfOk result (λ l. l ≡ map listed (filter (λ e. is_child directory.now e.0) names.now)) }
{
    let mut found = NameList::empty(alloc);
    for name in names {
        if is_child(directory, name.path()) {
            found.push(listed(alloc, name)?)?;
        }
    }
    Ok(found)
}

/// A name as it is listed: its last part, and a slash after a directory's.
fn listed(alloc: Global, name: &Name) -> Result<Text, NoMemory>
    ensures { IfOk result (λ t. t ≡ listed name.now) }
{
    let mut text = String::from_str(alloc, last_part(name.path()))?;
    match name.kind() {
        PlainNameKind::Dir => text.push('/')?,
        PlainNameKind::File(_) => {}
    }
    Ok(Text::new(text))
}

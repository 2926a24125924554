//! The names of a cell as a list in the order of their paths (section 4.1 of the Google File System paper).

ghost use Rattle.std.specs.Prelude.{◌≡◌, not, filter, option_map, OnOk, OnErr};
ghost use Rattle.std.specs.Ordering.{nat_cmp};
ghost use Rattle.std.specs.Str.{bytes_eq};
ghost use Rattle.std.specs.Cmp.Lexicographic.{slice_cmp};
ghost use Rattle.std.specs.FinMap as map;
ghost use Rattle.std.specs.FinMap.Entries.{find, put};
ghost use Rattle.relaxed_file.specs.Names.{node_at};
ghost use Rattle.machine_programs.specs.NameKinds.{node_of, place_of};

use crate::name::Name;
use crate::name_kind::PlainNameKind;
use gfs_types::lists::Text;
use gfs_types::no_memory::NoMemory;
use std::alloc::Global;
use std::cmp::Ordering;
use std::marker::Model;

/// What stands at the path, by looking at one name after another.
fn found(names: &[Name], path: &str) -> Option<PlainNameKind>
    ensures { option_map node_of result ≡ find (slice_cmp nat_cmp) path.now names.now }
{
    for name in names {
        if path == name.path() {
            return Some(name.kind());
        }
    }
    None
}

/// How many of the first names stand before the path.
fn place_of(names: &[Name], path: &str) -> usize
    ensures { result ≡ place_of path.now names.now }
{
    for place in 0..names.len() {
        if path.cmp(names[place].path()) != Ordering::Greater {
            return place;
        }
    }
    names.len()
}

/// Takes the name of a path away.
fn take_away(names: &mut Vec<Name>, path: &str)
    ensures { names.new.items ≡ filter (λ e. not (bytes_eq path.now e.0)) names.old.items }
{
    names.retain(|name| path != name.path());
}

/// Puts a name in its place, instead of any of that path.
fn put(names: &mut Vec<Name>, name: Name) -> Result<(), NoMemory>
    ensures ok { OnOk result (names.new.items ≡ put (slice_cmp nat_cmp) name.0 name.1 (filter (λ e. not (bytes_eq name.0 e.0)) names.old.items)) }
    ensures err { OnErr result (names.new.items ≡ filter (λ e. not (bytes_eq name.0 e.0)) names.old.items) }
{
    take_away(names, name.path());
    let place = place_of(names, name.path());
    names.insert(place, name)?;
    Ok(())
}

/// The names in the order of their paths, seen as the finite map of these.
#[derive(Drop)]
pub struct PlainNames {
    names: Vec<Name>,
}

impl Model for PlainNames {
    ghost use Rattle.std.specs.Prelude.{◌≡◌, true};
    ghost use Rattle.std.specs.Ordering.{nat_cmp};
    ghost use Rattle.std.specs.Cmp.Lexicographic.{slice_cmp};
    ghost use Rattle.std.specs.Coded.{codes, coded_ℕ, coded_list};
    ghost use Rattle.std.specs.FinMap as map;
    ghost use Rattle.std.specs.FinMap.Entries.{is_sorted};
    ghost use Rattle.relaxed_file.specs.Names.{Names};

    ghost Value = { Names };

    ghost coded = { Prim.hlevel (codes, map.code, coded_list, coded_ℕ) };

    ghost view = { λ n. map.from_entries n.names.items };

    ghost invariant = { λ n. is_sorted (slice_cmp nat_cmp) n.names.items ≡ true };
}

impl PlainNames {
    /// No names.
    pub(crate) fn empty(alloc: Global) -> PlainNames
        ensures { result ≡ map.empty }
    {
        PlainNames {
            names: Vec::new(alloc),
        }
    }

    /// What stands at a path.
    pub fn kind_at(&self, path: &str) -> Option<PlainNameKind>
        ensures { option_map node_of result ≡ node_at self.now path.now }
    {
        found(&self.names, path)
    }

    /// Puts a name in its place, instead of any of that path.
    pub fn insert(&mut self, path: Text, kind: PlainNameKind) -> Result<(), NoMemory>
        ensures { OnOk result (self.new ≡ map.insert self.old path (node_of kind)) }
    {
        put(&mut self.names, Name::new(path, kind))
    }

    /// Takes the name of a path away, if there is one.
    pub fn remove(&mut self, path: &str)
        ensures { self.new ≡ map.remove self.old path.now }
    {
        take_away(&mut self.names, path);
    }

    /// All names, in the order of their paths.
    pub fn as_slice(&self) -> &[Name]
        ensures { result.now ≡ map.entries self.now }
    {
        self.names.as_slice()
    }
}

//! Copies of all that stands at a path and below it.

ghost use Rattle.std.specs.Prelude.{◌≡◌, ◌≤◌, ◌++◌, false, true, map as map_list, length, string_bytes, Ok, IfOk, OnOk, OnErr};
ghost use Rattle.std.specs.FinMap.{entries};
ghost use Rattle.std.specs.List.{list_all};
ghost use Rattle.gfs_types.specs.Paths.{is_at_or_below};
ghost use Rattle.label_tree.specs.Entries.{under};
ghost use Rattle.label_tree.specs.Behind.{behind};
ghost use Rattle.path_trie.specs.Below.{has_at_or_below, copied_entries, copies_of, with_entries};
ghost use Rattle.path_trie.specs.Copies.{entries_at, paired, texts_of, without_names};

use crate::child::Named;
use crate::entries::add_behind;
use crate::parts::{is_at_or_below, rest_below};
use crate::trie::Trie;
use gfs_types::no_memory::NoMemory;
use gfs_types::path::Path;
use std::alloc::Allocator;

/// A copy that may find no memory.
pub trait TryCopy {
    /// An equal value.
    fn try_copy(&self) -> Result<Self, NoMemory>
    where
        Self: Sized,
        ensures { IfOk result (λ v. v ≡ self.now) };
}

impl TryCopy for u64 {
    /// The number. Takes no memory.
    fn try_copy(&self) -> Result<u64, NoMemory>
        ensures { result ≡ Ok self.now }
    {
        Ok(*self)
    }
}

impl<V: TryCopy + Drop, A: Allocator + Clone> Trie<V, A> {
    /// Adds a copy of what stands at `from` and below it, at `to` and below it. Nothing may stand at `to` or below it. NoMemory leaves the map as it was.
    pub fn copy_below(&mut self, from: &Path, to: &Path) -> Result<(), NoMemory>
        requires { has_at_or_below self.old to.now ≡ false }
        ensures ok { OnOk result (self.new ≡ with_entries self.old (copied_entries self.old from.now to.now)) }
        ensures err { OnErr result (self.new ≡ self.old) }
    {
        let from = from.as_str();
        let top = to.as_str();
        let copies = self.copies(from, top)?;
        let (names, values) = copies;
        self.add_all(top, names.as_slice(), values)
    }

    // The names of the copies, and what is to stand at each.
    fn copies(&self, from: &str, to: &str) -> Result<(Vec<String<A>, A>, Vec<V, A>), NoMemory>
        requires { 1 ≤ length from.now }
        ensures names { IfOk result (λ c. texts_of c.0.items ≡ map_list (λ e. e.0) (copied_entries self.now from.now to.now)) }
        ensures values { IfOk result (λ c. c.1.items ≡ map_list (λ e. e.1) (entries_at from.now (entries self.now))) }
    {
        let found = self.names_from(from)?;
        let names = copied_names(&self.alloc, found.as_slice(), from, to)?;
        let values = copied_values(&self.alloc, found.as_slice(), from)?;
        Ok((names, values))
    }
}

impl<V: Drop, A: Allocator + Clone> Trie<V, A> {
    // Every name that begins with the bytes of a path, and what stands there.
    fn names_from(&self, from: &str) -> Result<Vec<Named<'_, V, A>, A>, NoMemory>
        requires { 1 ≤ length from.now }
        ensures { IfOk result (λ found. found.items ≡ under from.now (behind from.now (entries self.now))) }
    {
        let mut front = Vec::new(self.alloc.clone()?);
        front.extend_from_slice(from.as_bytes())?;
        let mut found = Vec::new(self.alloc.clone()?);
        add_behind(&self.alloc, &mut found, None, &mut front, &self.names)?;
        Ok(found)
    }

    // Adds names that lie at `top` or below it, where none does yet, with a value for each: all or none of them.
    fn add_all(&mut self, top: &str, names: &[String<A>], values: Vec<V, A>) -> Result<(), NoMemory>
        requires top { 1 ≤ length top.now }
        requires none_yet { has_at_or_below self.old top.now ≡ false }
        requires all_there { list_all (is_at_or_below top.now) (texts_of names.now) ≡ true }
        requires each { length names.now ≡ length values.items }
        ensures ok { OnOk result (self.new ≡ with_entries self.old (paired (texts_of names.now) values.items)) }
        ensures err { OnErr result (self.new ≡ self.old) }
    {
        let mut count = 0;
        for value in values {
            if self.add(names[count].as_str(), value).is_err() {
                self.take_all(&names[..count]);
                return Err(NoMemory);
            }
            count += 1;
        }
        Ok(())
    }

    // Takes what stands at these names.
    fn take_all(&mut self, names: &[String<A>])
        ensures { self.new ≡ without_names (texts_of names.now) self.old }
    {
        for name in names {
            let _taken = self.take(name.as_str());
        }
    }
}

fn copied_names<V, A: Allocator + Clone>(
    alloc: &A,
    found: &[Named<'_, V, A>],
    from: &str,
    to: &str,
) -> Result<Vec<String<A>, A>, NoMemory>
    ensures { IfOk result (λ names. texts_of names.items ≡ map_list (λ e. e.0) (copies_of from.now to.now found.now)) }
{
    let mut names = Vec::new(alloc.clone()?);
    for one in found {
        let Some(rest) = rest_below(from, one.name()) else {
            continue;
        };
        let name = joined(alloc, to, rest)?;
        names.push(name)?;
    }
    Ok(names)
}

fn copied_values<V: TryCopy + Drop, A: Allocator + Clone>(
    alloc: &A,
    found: &[Named<'_, V, A>],
    from: &str,
) -> Result<Vec<V, A>, NoMemory>
    ensures { IfOk result (λ values. values.items ≡ map_list (λ e. e.1) (entries_at from.now found.now)) }
{
    let mut values = Vec::new(alloc.clone()?);
    for one in found {
        if !is_at_or_below(from, one.name()) {
            continue;
        }
        let value = one.value().try_copy()?;
        values.push(value)?;
    }
    Ok(values)
}

fn joined<A: Allocator + Clone>(alloc: &A, front: &str, rest: &str) -> Result<String<A>, NoMemory>
    ensures { IfOk result (λ name. string_bytes name ≡ front.now ++ rest.now) }
{
    let mut name = String::from_str(alloc.clone()?, front)?;
    name.push_str(rest)?;
    Ok(name)
}

//! The map itself.

ghost use Rattle.std.specs.Prelude.{◌≡◌, ◌≤◌, None, length, IfOk, IfErr, OnOk, OnErr, option_copied};
ghost use Rattle.std.specs.FinMap as map;
ghost use Rattle.gfs_types.specs.Paths.{front_below};
ghost use Rattle.path_trie.specs.Below.{children_by_part, has_below, has_at_or_below};

use crate::below::{has_more, has_slash_behind};
use crate::child::Child;
use crate::entries::{add_behind, add_names};
use gfs_types::no_memory::NoMemory;
use gfs_types::path::Path;
use label_tree::insert::insert;
use label_tree::remove::remove;
use label_tree::tree::Tree;
use std::alloc::{Allocator, Global};
use std::marker::Model;

/// A finite map from full paths to values, seen in the order of the paths' bytes. What paths begin with alike is kept once. All its memory lies in `A`.
#[derive(Drop)]
pub struct Trie<V, A: Allocator> {
    pub(crate) names: Tree<V, A>,
    count: usize,
    pub(crate) alloc: A,
}

impl<V, A: Allocator> Model for Trie<V, A> {
    ghost use Rattle.std.specs.Coded.{coded_ℕ, coded_list};
    ghost use Rattle.std.specs.FinMap.{code, from_entries};
    ghost use Rattle.path_trie.specs.Texts.{Names};
    ghost use Rattle.path_trie.specs.Counts.{IsCounted};

    ghost Value = { Names V };

    ghost coded = { code (coded_list coded_ℕ) V.code };

    ghost view = { λ t. from_entries t.names };

    ghost invariant = { λ t. IsCounted t.names t.count };
}

impl<V: Drop, A: Allocator + Clone> Trie<V, A> {
    /// An empty map.
    pub fn new(alloc: A) -> Result<Self, NoMemory>
        ensures { IfOk result (λ t. t ≡ map.empty) }
    {
        Ok(Trie {
            names: Tree::new(),
            count: 0,
            alloc,
        })
    }

    /// How many names it has.
    pub fn len(&self) -> usize
        ensures { result ≡ map.len self.now }
    {
        self.count
    }

    /// What stands at the path.
    pub fn get(&self, path: &Path) -> Option<&V>
        ensures { option_copied result ≡ map.get self.now path.now }
    {
        self.names.get(path.as_str().as_bytes())
    }

    /// Puts the value at the path, in place of what stands there. A path that is there needs no memory. NoMemory hands the value back and leaves the map as it was.
    pub fn insert(&mut self, path: &Path, value: V) -> Result<(), (V, NoMemory)>
        ensures ok { OnOk result (self.new ≡ map.insert self.old path.now value) }
        ensures err { OnErr result (self.new ≡ self.old) }
        ensures back { IfErr result (λ e. e.0 ≡ value) }
        ensures absent { OnErr result (map.get self.old path.now ≡ None) }
    {
        self.add(path.as_str(), value)
    }

    // The same at a text that has some byte.
    pub(crate) fn add(&mut self, name: &str, value: V) -> Result<(), (V, NoMemory)>
        requires { 1 ≤ length name.now }
        ensures ok { OnOk result (self.new ≡ map.insert self.old name.now value) }
        ensures err { OnErr result (self.new ≡ self.old) }
        ensures back { IfErr result (λ e. e.0 ≡ value) }
        ensures absent { OnErr result (map.get self.old name.now ≡ None) }
    {
        let bytes = name.as_bytes();
        let is_new = self.names.get(bytes).is_none();
        if is_new && self.count == usize::MAX {
            return Err((value, NoMemory));
        }
        match insert(&mut self.names, &self.alloc, bytes, value) {
            Ok(()) => {
                self.count += usize::from(is_new);
                Ok(())
            }
            Err((back, _)) => Err((back, NoMemory)),
        }
    }

    /// Takes what stands at the path. It needs no memory.
    pub fn remove(&mut self, path: &Path) -> Option<V>
        ensures value { result ≡ map.get self.old path.now }
        ensures rest { self.new ≡ map.remove self.old path.now }
    {
        self.take(path.as_str())
    }

    pub(crate) fn take(&mut self, name: &str) -> Option<V>
        ensures value { result ≡ map.get self.old name.now }
        ensures rest { self.new ≡ map.remove self.old name.now }
    {
        let taken = remove(&mut self.names, name.as_bytes());
        self.count -= usize::from(taken.is_some());
        taken
    }

    /// What stands right below a directory, in the order of the last parts' bytes. NoMemory: the list found no room in `alloc`.
    pub fn children(&self, alloc: Global, directory: &Path) -> Result<Vec<Child<'_, V>>, NoMemory>
        ensures { IfOk result (λ c. c.items ≡ children_by_part self.now directory.now) }
    {
        let directory = directory.as_str();
        let mut front = front_below(alloc, directory)?;
        let mut found = Vec::new(alloc);
        add_behind(&alloc, &mut found, Some(directory), &mut front, &self.names)?;
        Ok(found)
    }

    /// Every name under its whole path, in the order of the paths' bytes. NoMemory: the list found no room in `alloc`.
    pub fn entries(&self, alloc: Global) -> Result<Vec<Child<'_, V>>, NoMemory>
        ensures { IfOk result (λ c. c.items ≡ map.entries self.now) }
    {
        let mut front = Vec::new(alloc);
        let mut found = Vec::new(alloc);
        add_names(&alloc, &mut found, None, &mut front, &self.names)?;
        Ok(found)
    }

    /// Whether a name lies below the directory, at any depth. It needs no memory.
    pub fn has_below(&self, directory: &Path) -> bool
        ensures { result ≡ has_below self.now directory.now }
    {
        let front = directory.as_str().as_bytes();
        if front == b"/".as_slice() {
            return has_more(&self.names, front);
        }
        has_slash_behind(&self.names, front)
    }

    /// Whether a name lies at the path or below it, at any depth. It needs no memory.
    pub fn has_at_or_below(&self, path: &Path) -> bool
        ensures { result ≡ has_at_or_below self.now path.now }
    {
        self.names.get(path.as_str().as_bytes()).is_some() || self.has_below(path)
    }
}

// What all paths below a directory begin with.
fn front_below(alloc: Global, directory: &str) -> Result<Vec<u8>, NoMemory>
    ensures { IfOk result (λ front. front.items ≡ front_below directory.now) }
{
    let mut front = Vec::new(alloc);
    front.extend_from_slice(directory.as_bytes())?;
    if directory == "/" {
        return Ok(front);
    }
    front.push(b'/')?;
    Ok(front)
}

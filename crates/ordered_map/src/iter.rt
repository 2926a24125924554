//! The entries of a map, one after another.
ghost use Rattle.std.specs.Prelude.{◌≡◌, length};
ghost use Rattle.std.specs.Iterator.{at_most};
ghost use Rattle.std.specs.Map.Iter.{TakesFirst, deref_pair};
ghost use Rattle.ordered_map.specs.Rising.{flat};

use crate::leaf::Leaf;
use std::collections::btree_map;
use std::iter::Iterator;
use std::marker::Model;
use std::slice;

/// The entries that are left: those of one leaf, and then those of the leaves after it.
#[derive(Drop)]
pub struct Iter<'a, V> {
    entries: slice::Iter<'a, (u64, V)>,
    leaves: btree_map::Iter<'a, u64, Leaf<V>>,
}

impl<'a, V> Model for Iter<'a, V> {
    ghost use Rattle.std.specs.Prelude.{ℕ, List, ◌++◌};
    ghost use Rattle.std.specs.Slice.Iter.{iter_rest};
    ghost use Rattle.ordered_map.specs.Rising.{flat};

    ghost Value = { List (ℕ × V) };

    ghost view = { λ a. iter_rest a.entries ++ flat a.leaves };
}

impl<'a, V> Iter<'a, V> {
    pub(crate) fn new(leaves: btree_map::Iter<'a, u64, Leaf<V>>) -> Self
        ensures { result ≡ flat leaves.entry }
    {
        let none: &[(u64, V)] = &[];
        Iter {
            entries: none.iter(),
            leaves,
        }
    }
}

impl<'a, V> Iterator for Iter<'a, V> {
    type Item = (&'a u64, &'a V);

    ghost next_gives = { TakesFirst deref_pair };

    ghost remaining = { λ s. at_most (length s) };

    fn next(&mut self) -> Option<(&'a u64, &'a V)> {
        loop {
            if let Some(entry) = self.entries.next() {
                return Some((&entry.0, &entry.1));
            }
            let (_, leaf) = self.leaves.next()?;
            self.entries = leaf.entries().iter();
        }
    }
}

//! Leaves in rising number, each with the entries of 128 consecutive numbers.
ghost use Rattle.std.specs.Prelude.{◌≡◌, OnOk, OnErr, IfOk, IfNone, not};
ghost use Rattle.std.specs.Option.{option_copied, option_copied_mut};
ghost use Rattle.std.specs.FinMap as map;
ghost use Rattle.std.specs.Borrow.{sem};
ghost use Rattle.ordered_map.specs.ForestLending.{LendsInForest};

use crate::iter::Iter;
use crate::leaf::Leaf;
use std::alloc::{AllocError, Global};
use std::collections::BTreeMap;
use std::marker::Model;

/// How many numbers a leaf spans.
const SPAN: u64 = 128;

/// The leaves that have an entry, by what their numbers give divided by `SPAN`.
#[derive(Drop)]
pub(crate) struct Forest<V> {
    leaves: BTreeMap<u64, Leaf<V>>,
    alloc: Global,
}

impl<V> Model for Forest<V> {
    ghost use Rattle.std.specs.Ordering.{nat_cmp};
    ghost use Rattle.std.specs.FinMap as map;
    ghost use Rattle.std.specs.Coded.{coded_ℕ};
    ghost use Rattle.ordered_map.specs.Rising.{flat, IsForest};

    ghost Value = { map.FinMap nat_cmp V };

    ghost coded = { map.code coded_ℕ V.code };

    ghost view = { λ a. map.from_sorted (flat a.leaves.entries) };

    ghost invariant = { λ a. IsForest a.leaves.entries };
}

impl<V: Drop> Forest<V> {
    /// A forest without leaves. Takes no memory.
    pub(crate) fn new(alloc: Global) -> Self
        ensures { result ≡ map.empty }
    {
        Forest {
            leaves: BTreeMap::new(alloc),
            alloc,
        }
    }

    /// The entries, in rising number.
    pub(crate) fn iter(&self) -> Iter<'_, V>
        ensures { result ≡ map.entries self.now }
    {
        Iter::new(self.leaves.iter())
    }

    /// The value at a number.
    pub(crate) fn get(&self, key: u64) -> Option<&V>
        ensures { option_copied result ≡ map.get self.now key }
    {
        let leaf = self.leaves.get(&(key / SPAN))?;
        leaf.get(key)
    }

    /// The value at a number, to be changed in its place.
    pub(crate) fn get_mut(&mut self, key: u64) -> Option<&mut V>
        ensures* writes_back { sem 𝓛 (LendsInForest V.row self.entry key result) }
        ensures value { option_copied_mut result ≡ map.get self.old key }
    {
        let leaf = self.leaves.get_mut(&(key / SPAN))?;
        leaf.get_mut(key)
    }

    /// Puts a value at a number, and tells whether it had none; one that stood there is dropped. At an error nothing has
    /// changed.
    pub(crate) fn insert(&mut self, key: u64, value: V) -> Result<bool, AllocError>
        ensures ok { OnOk result (self.new ≡ map.insert self.old key value) }
        ensures is_new { IfOk result (λ is_new. is_new ≡ not (map.contains_key self.old key)) }
        ensures err { OnErr result (self.new ≡ self.old) }
    {
        let number = key / SPAN;
        match self.leaves.get_mut(&number) {
            Some(leaf) => leaf.insert(key, value),
            None => {
                let mut leaf = Leaf::new(self.alloc);
                leaf.insert(key, value)?;
                self.leaves.insert(number, leaf)?;
                Ok(true)
            }
        }
    }

    /// Takes out the value at a number.
    pub(crate) fn remove(&mut self, key: u64) -> Option<V>
        ensures value { result ≡ map.get self.old key }
        ensures rest { self.new ≡ map.remove self.old key }
        ensures none { IfNone result (self.new ≡ self.old) }
    {
        let number = key / SPAN;
        let leaf = self.leaves.get_mut(&number)?;
        let value = leaf.remove(key)?;
        if leaf.is_empty() {
            self.leaves.remove(&number);
        }
        Some(value)
    }
}

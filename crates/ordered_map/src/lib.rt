//! Finite maps from numbers, one of which can be gone through in order; contracts see each as the map alone.
#![tactic(auto)]

mod block;
mod forest;
pub mod iter;
mod leaf;
pub mod number_map;

ghost use Rattle.std.specs.Prelude.{◌≡◌, ℕ, IfNone, IfOk, OnOk, OnErr};
ghost use Rattle.std.specs.Option.{option_copied, option_copied_mut};
ghost use Rattle.std.specs.FinMap as map;
ghost use Rattle.std.specs.Map.Iter.{ShowsInOrder, deref_pair};
ghost use Rattle.std.specs.Borrow.{sem};
ghost use Rattle.ordered_map.specs.Lending.{LendsValue};

use crate::forest::Forest;
use crate::iter::Iter;
use std::alloc::{AllocError, Global};
use std::marker::Model;

/// A finite map from numbers to values.
#[derive(Drop)]
pub struct OrderedMap<V> {
    forest: Forest<V>,
    count: usize,
}

impl<V> Model for OrderedMap<V> {
    ghost use Rattle.std.specs.Prelude.{◌≡◌};
    ghost use Rattle.std.specs.Ordering.{nat_cmp};
    ghost use Rattle.std.specs.FinMap as map;
    ghost use Rattle.std.specs.Coded.{coded_ℕ};

    ghost Value = { map.FinMap nat_cmp V };

    ghost coded = { map.code coded_ℕ V.code };

    ghost view = { λ a. a.forest };

    ghost invariant = { λ a. a.count ≡ map.len a.forest };
}

impl<V: Drop> OrderedMap<V> {
    /// A map without entries. Takes no memory.
    pub fn new(alloc: Global) -> Self
        ensures { result ≡ map.empty }
    {
        OrderedMap {
            forest: Forest::new(alloc),
            count: 0,
        }
    }

    /// How many entries there are.
    pub fn len(&self) -> usize
        ensures { result ≡ map.len self.now }
    {
        self.count
    }

    /// The entries, in rising number.
    pub fn iter(&self) -> Iter<'_, V>
        ensures rest { result ≡ map.entries self.now }
        ensures runs { ShowsInOrder (deref_pair {K = ℕ} {X = V}) }
    {
        self.forest.iter()
    }

    /// The value at a number.
    pub fn get(&self, key: u64) -> Option<&V>
        ensures { option_copied result ≡ map.get self.now key }
    {
        self.forest.get(key)
    }

    /// Puts a value at a number; the value that stood there is dropped. At an error nothing has changed.
    pub fn insert(&mut self, key: u64, value: V) -> Result<(), AllocError>
        ensures ok { OnOk result (self.new ≡ map.insert self.old key value) }
        ensures err { OnErr result (self.new ≡ self.old) }
    {
        if self.count == usize::MAX {
            return Err(AllocError);
        }
        if self.forest.insert(key, value)? {
            self.count += 1;
        }
        Ok(())
    }

    /// The value at a number, to be changed in its place.
    pub fn get_mut(&mut self, key: u64) -> Option<&mut V>
        ensures* writes_back { sem 𝓛 (LendsValue V.row self.entry key result) }
        ensures value { option_copied_mut result ≡ map.get self.old key }
    {
        self.forest.get_mut(key)
    }

    /// Takes out the value at a number.
    pub fn remove(&mut self, key: u64) -> Option<V>
        ensures value { result ≡ map.get self.old key }
        ensures rest { self.new ≡ map.remove self.old key }
        ensures none { IfNone result (self.new ≡ self.old) }
    {
        let value = self.forest.remove(key)?;
        self.count -= 1;
        Some(value)
    }
}

//! A finite map from numbers, looked up in logarithmic time. Contracts see it as the map alone.

ghost use Rattle.std.specs.Prelude.{◌≡◌, ◌%◌, false, IfNone, OnOk, OnErr};
ghost use Rattle.std.specs.Option.{option_copied, option_copied_mut};
ghost use Rattle.std.specs.FinMap as map;
ghost use Rattle.std.specs.Borrow.{sem};
ghost use Rattle.ordered_map.specs.NumberLending.{LendsValue};

use crate::block::{Block, SPAN};
use std::alloc::{AllocError, Global};
use std::collections::BTreeMap;
use std::marker::Model;

/// A finite map from numbers to values.
#[derive(Drop)]
pub struct NumberMap<V> {
    blocks: BTreeMap<u64, Block<V>>,
    alloc: Global,
}

impl<V> Model for NumberMap<V> {
    ghost use Rattle.std.specs.Ordering.{nat_cmp};
    ghost use Rattle.std.specs.FinMap as map;
    ghost use Rattle.std.specs.Coded.{coded_ℕ};
    ghost use Rattle.ordered_map.specs.Places.{numbers};

    ghost Value = { map.FinMap nat_cmp V };

    ghost coded = { map.code coded_ℕ V.code };

    ghost view = { λ a. numbers a.blocks.entries };
}

/// The place of a number in its block.
fn place_of(key: u64) -> u32
    ensures value { result ≡ key % 32 }
{
    (key % SPAN) as u32
}

impl<V: Drop> NumberMap<V> {
    /// A map without entries. Takes no memory.
    pub fn new(alloc: Global) -> Self
        ensures { result ≡ map.empty }
    {
        NumberMap {
            blocks: BTreeMap::new(alloc),
            alloc,
        }
    }

    /// The value at a number.
    pub fn get(&self, key: u64) -> Option<&V>
        ensures { option_copied result ≡ map.get self.now key }
    {
        let block = self.blocks.get(&(key / SPAN))?;
        block.get(place_of(key))
    }

    /// Puts a value at a number; the value that stood there is dropped. Where memory is refused nothing has changed; that
    /// happens only at a number without a value.
    pub fn insert(&mut self, key: u64, value: V) -> Result<(), AllocError>
        ensures ok { OnOk result (self.new ≡ map.insert self.old key value) }
        ensures err { OnErr result (self.new ≡ self.old) }
        ensures absent { OnErr result (map.contains_key self.old key ≡ false) }
    {
        let number = key / SPAN;
        match self.blocks.get_mut(&number) {
            Some(block) => block.insert(place_of(key), value),
            None => {
                let mut block = Block::new(self.alloc);
                block.insert(place_of(key), value)?;
                self.blocks.insert(number, block)?;
                Ok(())
            }
        }
    }

    /// The value at a number, to be changed in its place.
    pub fn get_mut(&mut self, key: u64) -> Option<&mut V>
        ensures* writes_back { sem 𝓛 (LendsValue V.row self.entry key result) }
        ensures value { option_copied_mut result ≡ map.get self.old key }
    {
        let block = self.blocks.get_mut(&(key / SPAN))?;
        block.get_mut(place_of(key))
    }

    /// Takes out the value at a number.
    pub fn remove(&mut self, key: u64) -> Option<V>
        ensures value { result ≡ map.get self.old key }
        ensures rest { self.new ≡ map.remove self.old key }
        ensures none { IfNone result (self.new ≡ self.old) }
    {
        let number = key / SPAN;
        let block = self.blocks.get_mut(&number)?;
        let value = block.remove(place_of(key))?;
        if block.is_empty() {
            self.blocks.remove(&number);
        }
        Some(value)
    }
}

//! A block: the values at up to 32 consecutive numbers, side by side, with a bit for each number that has one.
ghost use Rattle.std.specs.Prelude.{◌≡◌, ◌↔◌, ◌<◌, ◌^◌, ◌%◌, None, IsTrue, OnOk, OnErr, IfNone};
ghost use Rattle.std.specs.Option.{option_copied, option_copied_mut};
ghost use Rattle.std.specs.Int.RustNames.{count_ones};
ghost use Rattle.std.specs.Int.{bit_at};
ghost use Rattle.std.specs.FinMap as map;
ghost use Rattle.std.specs.Borrow.{sem};
ghost use Rattle.ordered_map.specs.BlockLending.{LendsInBlock};

use std::alloc::{AllocError, Global};
use std::marker::Model;

/// How many numbers a block spans.
pub(crate) const SPAN: u64 = 32;

/// The values at the places of a block.
#[derive(Drop)]
pub(crate) struct Block<V> {
    present: u32,
    values: Vec<V>,
}

impl<V> Model for Block<V> {
    ghost use Rattle.std.specs.Prelude.{◌≡◌, length};
    ghost use Rattle.std.specs.Ordering.{nat_cmp};
    ghost use Rattle.std.specs.Int.RustNames.{count_ones};
    ghost use Rattle.std.specs.FinMap as map;
    ghost use Rattle.std.specs.Coded.{coded_ℕ};
    ghost use Rattle.ordered_map.specs.Places.{block_values};

    ghost Value = { map.FinMap nat_cmp V };

    ghost coded = { map.code coded_ℕ V.code };

    ghost view = { λ a. block_values a.present a.values.items };

    ghost invariant = { λ a. count_ones a.present ≡ length a.values.items };
}

/// Whether a place has a value.
fn is_present(present: u32, place: u32) -> bool
    requires { place < 32 }
    ensures { IsTrue result ↔ (bit_at present place ≡ 1) }
{
    (present >> place) & 1 == 1
}

/// How many values stand before a place.
fn count_before(present: u32, place: u32) -> usize
    requires { place < 32 }
    ensures { result ≡ count_ones (present % 2 ^ place) }
{
    (present & ((1 << place) - 1)).count_ones() as usize
}

impl<V> Block<V> {
    /// A block without values. Takes no memory.
    pub(crate) fn new(alloc: Global) -> Self
        ensures { result ≡ map.empty }
    {
        Block {
            present: 0,
            values: Vec::new(alloc),
        }
    }

    /// The value at a place.
    pub(crate) fn get(&self, place: u32) -> Option<&V>
        requires { place < 32 }
        ensures { option_copied result ≡ map.get self.now place }
    {
        if is_present(self.present, place) {
            self.values.get(count_before(self.present, place))
        } else {
            None
        }
    }

    /// The value at a place, to be changed.
    pub(crate) fn get_mut(&mut self, place: u32) -> Option<&mut V>
        requires { place < 32 }
        ensures* writes_back { sem 𝓛 (LendsInBlock V.row self.entry place result) }
        ensures value { option_copied_mut result ≡ map.get self.old place }
    {
        if !is_present(self.present, place) {
            return None;
        }
        let index = count_before(self.present, place);
        self.values.get_mut(index)
    }

    /// Puts a value at a place; the value that stood there is dropped. Where memory is refused nothing has changed; that
    /// happens only at a place without a value.
    pub(crate) fn insert(&mut self, place: u32, value: V) -> Result<(), AllocError>
    where
        V: Drop,
        requires { place < 32 }
        ensures ok { OnOk result (self.new ≡ map.insert self.old place value) }
        ensures err { OnErr result (self.new ≡ self.old) }
        ensures absent { OnErr result (map.get self.old place ≡ None) }
    {
        let index = count_before(self.present, place);
        if is_present(self.present, place) {
            self.values[index] = value;
            return Ok(());
        }
        make_room(&mut self.values)?;
        self.values.insert(index, value)?;
        self.present |= 1 << place;
        Ok(())
    }

    /// Takes out the value at a place, and gives back memory where half of it would be unused.
    pub(crate) fn remove(&mut self, place: u32) -> Option<V>
        requires { place < 32 }
        ensures value { result ≡ map.get self.old place }
        ensures rest { self.new ≡ map.remove self.old place }
        ensures none { IfNone result (self.new ≡ self.old) }
    {
        if !is_present(self.present, place) {
            return None;
        }
        let value = self.values.remove(count_before(self.present, place));
        self.present &= !(1 << place);
        give_back(&mut self.values);
        Some(value)
    }

    /// Whether no place has a value.
    pub(crate) fn is_empty(&self) -> bool
        ensures { IsTrue result → self.now ≡ map.empty }
    {
        self.present == 0
    }
}

/// Makes room for a quarter more values, and for one at least, up to a whole block.
fn make_room<V>(values: &mut Vec<V>) -> Result<(), AllocError>
    ensures { values.new.items ≡ values.old.items }
{
    let count = values.len();
    if count < values.capacity() {
        return Ok(());
    }
    let more = (count / 4).clamp(1, 32 - count.min(31));
    values.reserve_exact(more)
}

/// Gives back the memory behind the values, where it is half of all or more.
fn give_back<V>(values: &mut Vec<V>)
    ensures { values.new.items ≡ values.old.items }
{
    if values.len() <= values.capacity() / 2 {
        values.shrink_to_fit();
    }
}

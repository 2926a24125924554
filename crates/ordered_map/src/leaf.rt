//! A leaf: entries whose numbers lie close together, in rising number.
ghost use Rattle.std.specs.Prelude.{◌≡◌, OnOk, OnErr, IfOk, IfNone, IsTrue, not, slice_get};
ghost use Rattle.std.specs.Option.{option_copied, option_copied_mut};
ghost use Rattle.std.specs.FinMap as map;
ghost use Rattle.std.specs.Borrow.{sem};
ghost use Rattle.ordered_map.specs.Rising.{IsRising, count_below, has_key};
ghost use Rattle.ordered_map.specs.LeafLending.{LendsInLeaf};

use std::alloc::{AllocError, Global};
use std::marker::Model;

/// The entries of a leaf.
#[derive(Drop)]
pub(crate) struct Leaf<V> {
    entries: Vec<(u64, V)>,
}

impl<V> Model for Leaf<V> {
    ghost use Rattle.std.specs.Ordering.{nat_cmp};
    ghost use Rattle.std.specs.FinMap as map;
    ghost use Rattle.std.specs.Coded.{coded_ℕ};
    ghost use Rattle.ordered_map.specs.Rising.{IsRising};

    ghost Value = { map.FinMap nat_cmp V };

    ghost coded = { map.code coded_ℕ V.code };

    ghost view = { λ a. map.from_sorted a.entries.items };

    ghost invariant = { λ a. IsRising a.entries.items };
}

/// How many entries stand before a number, and whether the next one has it.
fn place_in<V>(entries: &Vec<(u64, V)>, key: u64) -> (usize, bool)
    requires { IsRising entries.now.items }
    ensures place { result.0 ≡ count_below key entries.now.items }
    ensures hit { result.1 ≡ has_key key (slice_get entries.now.items (count_below key entries.now.items)) }
{
    let place = place_of(entries.as_slice(), key);
    (place, is_at(entries.as_slice(), place, key))
}

/// How many entries stand before a number.
fn place_of<V>(entries: &[(u64, V)], key: u64) -> usize
    requires { IsRising entries.now }
    ensures { result ≡ count_below key entries.now }
{
    entries.partition_point(|entry| entry.0 < key)
}

/// Whether the entry at a place is that of a number.
fn is_at<V>(entries: &[(u64, V)], place: usize, key: u64) -> bool
    ensures { result ≡ has_key key (slice_get entries.now place) }
{
    match entries.get(place) {
        Some(entry) => entry.0 == key,
        None => false,
    }
}

impl<V> Leaf<V> {
    /// A leaf without entries. Takes no memory.
    pub(crate) fn new(alloc: Global) -> Self
        ensures { result ≡ map.empty }
    {
        Leaf {
            entries: Vec::new(alloc),
        }
    }

    /// The value at a number.
    pub(crate) fn get(&self, key: u64) -> Option<&V>
        ensures { option_copied result ≡ map.get self.now key }
    {
        let (place, is_there) = place_in(&self.entries, key);
        if !is_there {
            return None;
        }
        Some(&self.entries[place].1)
    }

    /// The value at a number, to be changed in its place.
    pub(crate) fn get_mut(&mut self, key: u64) -> Option<&mut V>
        ensures* writes_back { sem 𝓛 (LendsInLeaf V.row self.entry key result) }
        ensures value { option_copied_mut result ≡ map.get self.old key }
    {
        let (place, is_there) = place_in(&self.entries, key);
        if !is_there {
            return None;
        }
        let entry = &mut self.entries[place];
        Some(&mut entry.1)
    }

    /// Puts a value at a number, and tells whether it had none; one that stood there is dropped. At an error nothing has
    /// changed.
    pub(crate) fn insert(&mut self, key: u64, value: V) -> Result<bool, AllocError>
    where
        V: Drop,
        ensures ok { OnOk result (self.new ≡ map.insert self.old key value) }
        ensures is_new { IfOk result (λ is_new. is_new ≡ not (map.contains_key self.old key)) }
        ensures err { OnErr result (self.new ≡ self.old) }
    {
        let (place, is_there) = place_in(&self.entries, key);
        if is_there {
            self.entries[place] = (key, value);
            return Ok(false);
        }
        make_room(&mut self.entries)?;
        self.entries.insert(place, (key, value))?;
        Ok(true)
    }

    /// Takes out the value at a number, and gives back memory where half of it would be unused.
    pub(crate) fn remove(&mut self, key: u64) -> Option<V>
        ensures value { result ≡ map.get self.old key }
        ensures rest { self.new ≡ map.remove self.old key }
        ensures none { IfNone result (self.new ≡ self.old) }
    {
        let (place, is_there) = place_in(&self.entries, key);
        if !is_there {
            return None;
        }
        let (_, value) = self.entries.remove(place);
        give_back(&mut self.entries);
        Some(value)
    }

    /// Whether there is no entry.
    pub(crate) fn is_empty(&self) -> bool
        ensures { IsTrue result → self.now ≡ map.empty }
    {
        self.entries.is_empty()
    }

    /// The entries, in rising number.
    pub(crate) fn entries(&self) -> &[(u64, V)]
        ensures { result.now ≡ map.entries self.now }
    {
        self.entries.as_slice()
    }
}

/// Makes room for a quarter more entries, and for one at least, up to a whole leaf.
fn make_room<V>(entries: &mut Vec<(u64, V)>) -> Result<(), AllocError>
    ensures { entries.new.items ≡ entries.old.items }
{
    let count = entries.len();
    if count < entries.capacity() {
        return Ok(());
    }
    let more = (count / 4).clamp(1, 128 - count.min(127));
    entries.reserve_exact(more)
}

/// Gives back the memory behind the entries, where it is half of all or more.
fn give_back<V>(entries: &mut Vec<(u64, V)>)
    ensures { entries.new.items ≡ entries.old.items }
{
    if entries.len() <= entries.capacity() / 2 {
        entries.shrink_to_fit();
    }
}

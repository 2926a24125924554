//! Free slots.

ghost use Rattle.std.specs.Prelude.{◌≡◌, ◌<◌, [], ◌∷◌, slice_get, All, IfNone, IfOk, IfSome, OnErr, OnOk};
ghost use Rattle.std.specs.BTreeMap.{is_at};
ghost use Rattle.std.specs.BTreeSet.{insert_key};
ghost use Rattle.std.specs.List.{range_with_len};
ghost use Rattle.std.specs.Ordering.{nat_cmp};
ghost use Rattle.std.specs.Set.{remove_key};

use std::alloc::{AllocError, Global};
use std::collections::BTreeSet;
use std::marker::Model;

/// The slots that are free, the lowest first. The lowest is found, taken and put back in O(log n).
#[derive(Drop)]
pub struct FreeSlots {
    slots: BTreeSet<u32>,
}

impl Model for FreeSlots {
    ghost use Rattle.std.specs.Prelude.{ℕ, List};

    ghost Value = { List ℕ };

    ghost view = { λ f. f.slots.keys };
}

impl FreeSlots {
    /// The slots from 0 to before `count`.
    pub fn all(alloc: Global, count: u32) -> Result<FreeSlots, AllocError>
        ensures { IfOk result (λ free. free ≡ range_with_len 0 count) }
    {
        let mut slots = BTreeSet::new(alloc);
        for done in 0..count {
            slots.insert(count - 1 - done)?;
        }
        Ok(FreeSlots { slots })
    }

    /// The lowest.
    pub fn lowest(&self) -> Option<u32>
        ensures { result ≡ slice_get self.now 0 }
    {
        self.slots.first().copied()
    }

    /// Takes the lowest.
    pub fn take_lowest(&mut self) -> Option<u32>
        ensures lowest { IfSome result (λ slot. self.old ≡ slot ∷ self.new) }
        ensures least { IfSome result (λ slot. All (λ other. slot < other) self.new) }
        ensures none { IfNone result (self.old ≡ []) }
        ensures unchanged { IfNone result (self.new ≡ self.old) }
    {
        self.slots.pop_first()
    }

    /// Takes that one, where it is free.
    pub fn take(&mut self, slot: u32) -> bool
        ensures { self.new ≡ remove_key (is_at (nat_cmp slot)) self.old }
    {
        self.slots.remove(&slot)
    }

    /// Puts one back, at its place in the order. Where memory is refused nothing has changed.
    pub fn put(&mut self, slot: u32) -> Result<(), AllocError>
        ensures ok { OnOk result (self.new ≡ insert_key nat_cmp self.old slot) }
        ensures err { OnErr result (self.new ≡ self.old) }
    {
        self.slots.insert(slot)?;
        Ok(())
    }
}

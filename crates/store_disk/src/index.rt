//! The replicas of a disk, by handle.

ghost use Rattle.std.specs.Prelude.{◌≡◌, ◌≢◌, [], is_none, map as mapped, slice_get, IfOk, OnErr, OnOk};
ghost use Rattle.std.specs.BTreeMap.{is_at};
ghost use Rattle.std.specs.FinMap as map;
ghost use Rattle.std.specs.List.{range_with_len};
ghost use Rattle.std.specs.Ordering.{nat_cmp};
ghost use Rattle.std.specs.Set.{remove_key};
ghost use Rattle.store_disk.specs.Index.{index_with, index_without, row_in};

use crate::free_slots::FreeSlots;
use crate::held::HeldReplica;
use gfs_types::ids::Handle;
use ordered_map::OrderedMap;
use replica_store::row::Row;
use std::alloc::{AllocError, Global};
use std::marker::Model;

/// What is known of each replica, by handle, and the slots that none lies in. Each call takes O(log n).
#[derive(Drop)]
pub struct SlotIndex {
    held: OrderedMap<HeldReplica>,
    free: FreeSlots,
}

impl Model for SlotIndex {
    ghost use Rattle.std.specs.Coded.{codes, coded_ℕ};
    ghost use Rattle.std.specs.FinMap as map;
    ghost use Rattle.store_disk.specs.Index.{IndexState};

    ghost Value = { IndexState };

    ghost coded = { Prim.hlevel (codes, map.code, coded_ℕ) };

    ghost view = { λ x. record { held = x.held; free = x.free } };
}

impl SlotIndex {
    /// Without replicas: each slot is free.
    pub fn new(alloc: Global, slots: u32) -> Result<SlotIndex, AllocError>
        ensures { IfOk result (λ x. x ≡ record { held = map.empty; free = range_with_len 0 slots }) }
    {
        Ok(SlotIndex {
            held: OrderedMap::new(alloc),
            free: FreeSlots::all(alloc, slots)?,
        })
    }

    /// What is known of a replica.
    pub fn get(&self, handle: Handle) -> Option<HeldReplica>
        ensures { result ≡ map.get self.now.held handle.0 }
    {
        self.held.get(handle.0).copied()
    }

    /// What is known of each replica, in rising handle.
    pub fn list(&self, alloc: Global) -> Result<Vec<(Handle, Row)>, AllocError>
        ensures { IfOk result (λ rows. rows.items ≡ mapped row_in (map.entries self.now.held)) }
    {
        let mut rows = Vec::new(alloc);
        for (handle, found) in self.held.iter() {
            rows.push((Handle(*handle), found.row))?;
        }
        Ok(rows)
    }

    /// Whether no slot is free.
    pub fn is_full(&self) -> bool
        ensures { result ≡ is_none (slice_get self.now.free 0) }
    {
        self.free.lowest().is_none()
    }

    /// A new replica, in the lowest free slot, which is told; `None` where no slot is free. Memory is needed only where one is.
    pub fn add(&mut self, handle: Handle, row: Row) -> Result<Option<u32>, AllocError>
        ensures slot { IfOk result (λ slot. slot ≡ slice_get self.old.free 0) }
        ensures ok { OnOk result (self.new ≡ index_with self.old handle.0 row self.old.free) }
        ensures err { OnErr result (self.new ≡ self.old) }
        ensures room { OnErr result (self.old.free ≢ []) }
    {
        let Some(slot) = self.free.lowest() else {
            return Ok(None);
        };
        self.held.insert(handle.0, HeldReplica { slot, row })?;
        self.free.take_lowest();
        Ok(Some(slot))
    }

    /// A replica that lies in that slot.
    pub fn occupy(&mut self, handle: Handle, found: HeldReplica) -> Result<(), AllocError>
        ensures ok { OnOk result (self.new ≡ record { held = map.insert self.old.held handle.0 found; free = remove_key (is_at (nat_cmp found.slot)) self.old.free }) }
        ensures err { OnErr result (self.new ≡ self.old) }
    {
        self.held.insert(handle.0, found)?;
        self.free.take(found.slot);
        Ok(())
    }

    /// What is known of the replica of a handle becomes this.
    pub fn update(&mut self, handle: Handle, found: HeldReplica) -> Result<(), AllocError>
        ensures ok { OnOk result (self.new ≡ record self.old { held = map.insert self.old.held handle.0 found }) }
        ensures err { OnErr result (self.new ≡ self.old) }
    {
        self.held.insert(handle.0, found)?;
        Ok(())
    }

    /// The replica goes, and its slot is free again. Where memory is refused nothing has changed.
    pub fn remove(&mut self, handle: Handle) -> Result<(), AllocError>
        ensures ok { OnOk result (self.new ≡ index_without self.old handle.0 (map.get self.old.held handle.0)) }
        ensures err { OnErr result (self.new ≡ self.old) }
    {
        if let Some(found) = self.get(handle) {
            self.free.put(found.slot)?;
            self.held.remove(handle.0);
        }
        Ok(())
    }
}

//! The locations that a client keeps (section 2.4).

ghost use Rattle.std.specs.Prelude.{◌≡◌, [], max, IfOk, OnOk, OnErr};
ghost use Rattle.std.specs.Option.{option_copied};
ghost use Rattle.std.specs.Map.{lookup};
ghost use Rattle.std.specs.NonZero.{non_zero_usize_get};
ghost use Rattle.lru.specs.LruCache.{lru_cache, promoted, put_entries};
ghost use Rattle.protocol.specs.ClientCache.{is_same_place, without_location};

use client_state::kept::{Cached, Place};
use gfs_types::no_memory::NoMemory;
use lru::LruCache as Lru;
use std::alloc::Global;
use std::marker::Model;
use std::num::NonZeroUsize;

/// Locations by the place of their chunk, the one used last first, and at most so many. Each call but `reset` takes constant time.
#[derive(Drop)]
pub struct Locations {
    kept: Lru<Place, Cached>,
}

impl Model for Locations {
    ghost use Rattle.std.specs.Coded.{codes, coded_ℕ};
    ghost use Rattle.lru.specs.LruCache.{LruCache, lru_cache_code};
    ghost use Rattle.client_state.specs.declared.kept.Place.{Place as PlaceValue};
    ghost use Rattle.client_state.specs.declared.kept.Cached.{Cached as CachedValue};

    ghost Value = { LruCache PlaceValue CachedValue };

    ghost coded = { Prim.hlevel (codes, lru_cache_code, coded_ℕ) };

    ghost view = { λ c. c.kept };
}

impl Locations {
    /// No location, and room for so many, at least for one. Room is taken as locations come.
    pub fn new(alloc: Global, entries: u32) -> Result<Locations, NoMemory>
        ensures { IfOk result (λ c. c ≡ lru_cache [] (max 1 entries)) }
    {
        Ok(Locations {
            kept: Lru::sparse(alloc, capacity(entries))?,
        })
    }

    /// The location of a chunk. The order stays.
    pub fn peek(&self, place: Place) -> Option<&Cached>
        ensures { option_copied result ≡ lookup (is_same_place place) self.now.entries }
    {
        self.kept.peek(&place)
    }

    /// A location becomes the one used last. Takes no memory.
    pub fn promote(&mut self, place: Place)
        ensures { self.new ≡ lru_cache (promoted (is_same_place place) self.old.entries) self.old.cap }
    {
        self.kept.promote(&place);
    }

    /// Keeps a location as the one used last, in place of an older one of the chunk. Of too many the one that was used
    /// longest ago goes. At an error nothing has changed.
    pub fn put(&mut self, place: Place, location: Cached) -> Result<(), NoMemory>
        ensures ok { OnOk result (self.new ≡ lru_cache (put_entries is_same_place self.old place location) self.old.cap) }
        ensures err { OnErr result (self.new ≡ self.old) }
    {
        match self.kept.put(place, location) {
            Ok(_) => Ok(()),
            Err(_) => Err(NoMemory),
        }
    }

    /// Drops a location. Takes no memory.
    pub fn forget(&mut self, place: Place)
        ensures { self.new ≡ without_location self.old place }
    {
        drop(self.kept.pop(&place));
    }

    /// Drops all locations; there is room for so many, at least for one. Takes no memory.
    pub fn reset(&mut self, entries: u32)
        ensures { self.new ≡ lru_cache [] (max 1 entries) }
    {
        self.kept.clear();
        self.kept.resize(capacity(entries));
    }
}

fn capacity(entries: u32) -> NonZeroUsize
    ensures { non_zero_usize_get result ≡ max 1 entries }
{
    NonZeroUsize::new(entries as usize).unwrap_or(NonZeroUsize::MIN)
}

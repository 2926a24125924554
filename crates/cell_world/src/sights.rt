//! What was seen of all steps, and the regions of a chunk by it (section 2.7.1).

ghost use Rattle.std.specs.Prelude.{◌≡◌, ◌<◌, ◌^◌, [], ◌++◌, map, All, IfOk, OnOk};
ghost use Rattle.gfs_types.specs.Mutations.{end_of};
ghost use Rattle.relaxed_file.specs.Regions.{regions_of};
ghost use Rattle.cell_world.specs.Kept.{blank_seen};
ghost use Rattle.cell_world.specs.Seeing.{entries_seen};

use crate::orders::Orders;
use crate::placed::Numbered;
use crate::sighting::{Sighting, sightings};
use gfs_types::ids::Handle;
use gfs_types::no_memory::NoMemory;
use machine_programs::entry::Entry;
use protocol::seen::SeenList;
use relaxed_file::region::Region;
use std::alloc::Global;
use std::marker::Model;

/// What was seen, in order, without the bytes of mutations: those of the last step are kept until room for another one is made.
#[derive(Drop)]
pub struct Sights {
    alloc: Global,
    past: Vec<Sighting>,
    last: SeenList,
}

impl Model for Sights {
    ghost use Rattle.std.specs.Prelude.{◌-◌, ◌++◌, length, map};
    ghost use Rattle.cell_world.specs.Kept.{blank_seen, seen_of};
    ghost use Rattle.cell_world.specs.Seeing.{SeenSoFar};

    ghost Value = { SeenSoFar };

    ghost view = { λ s. record { seen = map seen_of s.past.items ++ map blank_seen s.last; room = 1 - length s.last } };
}

impl Sights {
    /// Takes no memory.
    pub fn new(alloc: Global) -> Sights
        ensures seen { result.seen ≡ [] }
        ensures room { 0 < result.room }
    {
        Sights {
            alloc,
            past: Vec::new(alloc),
            last: SeenList::empty(alloc),
        }
    }

    /// Room for what is seen of a step is made. At an error what was seen is the same.
    pub fn reserve(&mut self) -> Result<(), NoMemory>
        ensures seen { self.new.seen ≡ self.old.seen }
        ensures room { OnOk result (0 < self.new.room) }
    {
        if self.last.len() == 0 {
            return Ok(());
        }
        let mut kept = sightings(self.alloc, self.last.as_slice())?;
        self.past.append(&mut kept)?;
        self.last = SeenList::empty(self.alloc);
        Ok(())
    }

    /// This was seen of a step. Takes no memory.
    pub fn sees(&mut self, seen: SeenList)
        requires { 0 < self.old.room }
        ensures { self.new.seen ≡ self.old.seen ++ map blank_seen seen }
    {
        self.last = seen;
    }

    /// This was seen of a step. No bytes of it are kept here.
    #[tactic(auto, using(crate::proofs::Seeing::noted_too))]
    pub fn notes(&mut self, seen: &SeenList) -> Result<(), NoMemory>
        requires { 0 < self.old.room }
        ensures seen { OnOk result (self.new.seen ≡ self.old.seen ++ map blank_seen seen.now) }
        ensures room { OnOk result (0 < self.new.room) }
    {
        let mut kept = sightings(self.alloc, seen.as_slice())?;
        self.past.append(&mut kept)?;
        Ok(())
    }

    /// The regions of a handle's chunk. It replays all that was seen.
    pub fn regions(&self, alloc: Global, handle: Handle) -> Result<Vec<Region>, NoMemory>
        ensures { IfOk result (λ regions. regions.items ≡ regions_of (entries_seen self.now.seen handle.0)) }
    {
        let entries = self.entries(alloc, handle)?;
        Ok(machine_programs::regions::regions(alloc, entries.as_slice())?)
    }

    fn entries(&self, alloc: Global, handle: Handle) -> Result<Vec<Entry>, NoMemory>
        ensures entries { IfOk result (λ entries. entries.items ≡ entries_seen self.now.seen handle.0) }
        ensures ends { IfOk result (λ entries. All (λ e. end_of e.mutation < 2 ^ 64) entries.items) }
    {
        let last = sightings(alloc, self.last.as_slice())?;
        let mut orders = Orders::new(alloc);
        orders.sees_all(self.past.as_slice())?;
        orders.sees_all(last.as_slice())?;
        let list = orders.copy_of(handle.0)?;
        entries_of(alloc, list.as_slice())
    }
}

fn entries_of(alloc: Global, list: &[Numbered]) -> Result<Vec<Entry>, NoMemory>
    ensures entries { IfOk result (λ entries. entries.items ≡ map (λ p. p.entry) list.now) }
    ensures ends { IfOk result (λ entries. All (λ e. end_of e.mutation < 2 ^ 64) entries.items) }
{
    let mut entries = Vec::new(alloc);
    for one in list {
        entries.push(one.entry()?)?;
    }
    Ok(entries)
}

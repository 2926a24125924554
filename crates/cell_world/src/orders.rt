//! The orders of all chunks' mutations.

ghost use Rattle.std.specs.Prelude.{◌≡◌, [], ◌∷◌, ◌++◌, map, IfOk, OnOk};
ghost use Rattle.std.specs.FinMap as table;
ghost use Rattle.protocol.specs.Observer.{placed_in, settled_as, orders_after, orders_after_all};
ghost use Rattle.cell_world.specs.Kept.{seen_of};

use crate::placed::Numbered;
use crate::sighting::Sighting;
use gfs_types::ids::{Serial, Version};
use gfs_types::lists::Sequence;
use gfs_types::no_memory::NoMemory;
use ordered_map::number_map::NumberMap;
use std::alloc::Global;
use std::marker::Model;

type NumberedList = Sequence<Numbered>;

/// The order of each chunk, by handle.
#[derive(Drop)]
pub struct Orders {
    alloc: Global,
    lists: NumberMap<NumberedList>,
}

impl Model for Orders {
    ghost use Rattle.std.specs.Prelude.{List};
    ghost use Rattle.std.specs.Coded.{codes, coded_ℕ};
    ghost use Rattle.std.specs.FinMap as table;
    ghost use Rattle.protocol.specs.Observer.{Placed};
    ghost use Rattle.protocol.specs.Tables.{Table};

    ghost Value = { Table (List Placed) };

    ghost coded = { Prim.hlevel (codes, table.code, coded_ℕ) };

    ghost view = { λ o. o.lists };
}

impl Orders {
    /// Takes no memory.
    pub(crate) fn new(alloc: Global) -> Orders
        ensures { result ≡ table.empty }
    {
        Orders {
            alloc,
            lists: NumberMap::new(alloc),
        }
    }

    /// What one thing that was seen does.
    pub(crate) fn sees(&mut self, seen: &Sighting) -> Result<(), NoMemory>
        ensures { OnOk result (self.new ≡ orders_after [] self.old (seen_of seen.now)) }
    {
        match seen {
            Sighting::Numbered {
                handle,
                version,
                serial,
                extent,
            } => {
                let mut list = self.copy_of(handle.0)?;
                list.push(Numbered::new(*version, *serial, *extent))?;
                self.put(handle.0, list)
            }
            Sighting::BecameSettled {
                handle,
                version,
                serial,
            } => {
                let list = self.copy_of(handle.0)?;
                let list = settled(self.alloc, list, *version, *serial)?;
                self.put(handle.0, list)
            }
            Sighting::CopyStarted { handle, copy } => {
                let list = self.copy_of(handle.0)?;
                self.put(copy.0, list)
            }
        }
    }

    pub(crate) fn sees_all(&mut self, seen: &[Sighting]) -> Result<(), NoMemory>
        ensures { OnOk result (self.new ≡ orders_after_all [] self.old (map seen_of seen.now)) }
    {
        for one in seen {
            self.sees(one)?;
        }
        Ok(())
    }

    /// The order of a handle.
    pub(crate) fn copy_of(&self, handle: u64) -> Result<NumberedList, NoMemory>
        ensures { IfOk result (λ list. list ≡ placed_in self.now handle) }
    {
        match self.lists.get(handle) {
            Some(list) => list.copy(self.alloc),
            None => Ok(Sequence::empty(self.alloc)),
        }
    }

    fn put(&mut self, handle: u64, list: NumberedList) -> Result<(), NoMemory>
        ensures { OnOk result (self.new ≡ table.insert self.old handle list) }
    {
        self.lists.insert(handle, list)?;
        Ok(())
    }
}

fn settled(
    alloc: Global,
    list: NumberedList,
    version: Version,
    serial: Serial,
) -> Result<NumberedList, NoMemory>
    ensures { IfOk result (λ after. after ≡ map (settled_as version.0 serial.0) list) }
{
    let mut after = Vec::new(alloc);
    for one in list.into_vec() {
        after.push(one.settled_as(version, serial))?;
    }
    Ok(Sequence::new(after))
}

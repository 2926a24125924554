//! A parked cell that is looked at.

ghost use Rattle.std.specs.Prelude.{◌≡◌, ◌∷◌, ◌++◌, [], map, option_map, true, IfOk, IfErr, OnOk};
ghost use Rattle.std.specs.List.{filter_map};
ghost use Rattle.std.specs.Prelude.{option_and_then};
ghost use Rattle.std.specs.FinMap as table;
ghost use Rattle.protocol.specs.Lookups.{file_named, regions_at, replicas_at, stored_on};
ghost use Rattle.protocol.specs.Sending.{file_id, handle_of};
ghost use Rattle.protocol.specs.Tables.{element_at};
ghost use Rattle.protocol.specs.World.{WorldState};
ghost use Rattle.cell_world.specs.AsStored.{as_stored};
ghost use Rattle.cell_journal.specs.WholeHistories.{whole_of};
ghost use Rattle.cell_world.specs.Kept.{blank_seen};
ghost use Rattle.cell_looks.specs.Faults.{IsLookFault};
ghost use Rattle.cell_looks.specs.Noted.{noted_in};
ghost use Rattle.cell_looks.specs.ParkedWorlds.{IsWorldOf, file_regions};

use crate::history_sights::sights_kept;
use crate::look_fault::LookFault;
use crate::parked_servers::servers_of;
use cell_run::parked::Parked;
use cell_seats::journal::Journal;
use cell_world::master::CellMaster;
use cell_world::shown::stored;
use cell_world::sights::Sights;
use gfs_types::ids::{FileId, Handle};
use gfs_types::no_memory::NoMemory;
use gfs_types::path::Path;
use memory_nodes::master_slot::MasterSlot;
use relaxed_file::region::Region;
use script::stored::StoredReplica;
use server_cell::server_slot::ServerSlot;
use std::alloc::Global;
use std::marker::Model;

/// A parked cell, and what was seen of all its steps, if none of its entries was let go.
pub struct Looks<'a> {
    journal: &'a Journal,
    master: &'a MasterSlot<Global>,
    servers: Vec<&'a ServerSlot>,
    sights: Option<Sights>,
}

// Stands here, once, so that no crate above proves the drops of what was seen.
impl<'a> Drop for Looks<'a> {
    fn drop(self) {
        let Self {
            journal: _,
            master: _,
            servers: _servers,
            sights: _sights,
        } = self;
    }
}

impl<'a> Model for Looks<'a> {
    ghost use Rattle.std.specs.Prelude.{map};
    ghost use Rattle.std.specs.Coded.{codes, coded_ℕ, coded_list};
    ghost use Rattle.std.specs.FinMap as map_of;
    ghost use Rattle.cell_looks.specs.Looks.{LooksState, looks_state, AreSightsOf};

    ghost Value = { LooksState };

    ghost coded = { Prim.hlevel (codes, map_of.code, coded_list, coded_ℕ) };

    ghost view = { λ l. looks_state l.journal.now l.master.now.state (map (λ s. s.now) l.servers.items) };

    ghost invariant = { λ l. AreSightsOf l.journal.now l.sights };
}

impl<'a> Looks<'a> {
    /// Looks at a parked cell, whose history is gone through once. All that it tells holds of the worlds to which that history led with the
    /// nodes as they were parked; there is one.
    pub fn at(alloc: Global, parked: &'a Parked) -> Result<Looks<'a>, NoMemory>
        ensures journal { IfOk result (λ l. l.journal.now ≡ parked.now.journal) }
        ensures world { IfOk result (λ l. (w : WorldState) × IsWorldOf l w) }
    {
        let journal = parked.journal();
        journal.history();
        let master = parked.master();
        let sights = sights_kept(alloc, journal)?;
        let servers = servers_of(alloc, parked)?;
        Ok(Looks {
            journal,
            master: &master.node.master,
            servers,
            sights,
        })
    }

    /// The file that a path names; none where it names no file, and while the master is down.
    pub fn file(&self, path: &Path) -> Option<FileId>
        ensures { (w : WorldState) → IsWorldOf self.now w → result ≡ option_map file_id (file_named w path.now) }
    {
        self.master.file(path)
    }

    /// The regions of a file's chunk of this index, from 0: the maximal ranges below the greatest end of its mutations whose bytes are all
    /// determined or all undetermined. None: the file has no such chunk.
    ///
    /// - `Down`: the master is down.
    /// - `Partial`: of the cell's history some entries were let go.
    /// - `NoMemory`: memory was refused.
    pub fn regions(
        &self,
        alloc: Global,
        file: FileId,
        index: u64,
    ) -> Result<Option<Vec<Region>>, LookFault>
        ensures regions { IfOk result (λ found. (w : WorldState) → IsWorldOf self.now w → option_map (λ v. v.items) found ≡ regions_at w file.0 index) }
        ensures fault { IfErr result (IsLookFault self.now) }
    {
        let found = self.handle_at(file, index)?;
        let Some(handle) = found else {
            return Ok(None);
        };
        let sights = self.all_sights()?;
        let regions = sights.regions(alloc, handle)?;
        Ok(Some(regions))
    }

    /// The regions of each of a file's chunks, in the order of their indexes.
    ///
    /// - `Down`: the master is down.
    /// - `Partial`: of the cell's history some entries were let go.
    /// - `NoMemory`: memory was refused.
    pub fn all_regions(&self, alloc: Global, file: FileId) -> Result<Vec<Vec<Region>>, LookFault>
        ensures regions { IfOk result (λ all. (w : WorldState) → IsWorldOf self.now w → map (λ v. v.items) all.items ≡ file_regions w file.0) }
        ensures fault { IfErr result (IsLookFault self.now) }
    {
        let mut all = Vec::new(alloc);
        for index in 0..u64::MAX {
            let found = self.regions(alloc, file, index)?;
            let Some(regions) = found else {
                return Ok(all);
            };
            keep(&mut all, regions)?;
        }
        Err(LookFault::NoMemory)
    }

    /// The handle of a file's chunk of this index, from 0, and each replica that is stored on a server that is up, by rising server. None: the
    /// file has no such chunk.
    ///
    /// - `Down`: the master is down.
    /// - `NoMemory`: memory was refused.
    pub fn replicas(
        &self,
        alloc: Global,
        file: FileId,
        index: u64,
    ) -> Result<Option<(Handle, Vec<StoredReplica>)>, LookFault>
        ensures replicas { IfOk result (λ found. (w : WorldState) → IsWorldOf self.now w → option_map (λ c. (c.0.0, map as_stored c.1.items)) found ≡ replicas_at w file.0 index) }
        ensures fault { IfErr result (IsLookFault self.now) }
    {
        let found = self.handle_at(file, index)?;
        let Some(handle) = found else {
            return Ok(None);
        };
        let replicas = stored_on_all(alloc, self.servers.as_slice(), handle)?;
        Ok(Some((handle, replicas)))
    }

    fn all_sights(&self) -> Result<&Sights, LookFault>
        ensures sights { IfOk result (λ s. s.now.seen ≡ map blank_seen (noted_in (whole_of self.now.journal.now))) }
        ensures fault { IfErr result (IsLookFault self.now) }
    {
        match &self.sights {
            Some(sights) => Ok(sights),
            None => Err(LookFault::Partial),
        }
    }

    fn handle_at(&self, file: FileId, index: u64) -> Result<Option<Handle>, LookFault>
        ensures up { IfOk result (λ _. self.now.master.up ≡ true) }
        ensures handle { IfOk result (λ found. found ≡ option_map handle_of (option_and_then (λ handles. element_at handles index) (table.get self.now.master.logged.table.files file.0))) }
        ensures fault { IfErr result (IsLookFault self.now) }
    {
        if !self.master.is_up() {
            return Err(LookFault::Down);
        }
        Ok(self.master.current_handle_at(file, index))
    }
}

fn keep(all: &mut Vec<Vec<Region>>, regions: Vec<Region>) -> Result<(), NoMemory>
    ensures { OnOk result (map (λ v. v.items) all.new.items ≡ map (λ v. v.items) all.old.items ++ regions.items ∷ []) }
{
    all.push(regions)?;
    Ok(())
}

fn stored_on_all(
    alloc: Global,
    servers: &[&ServerSlot],
    handle: Handle,
) -> Result<Vec<StoredReplica>, NoMemory>
    ensures { IfOk result (λ all. map as_stored all.items ≡ filter_map (stored_on handle.0) (map (λ s. s.now) servers.now)) }
{
    let mut all = Vec::new(alloc);
    for before in 0..servers.len() {
        if let Some(replica) = stored(servers[before], handle) {
            all.push(replica)?;
        }
    }
    Ok(all)
}

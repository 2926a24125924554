//! The place of the master in a cell: it lets the log's disk stop, and opens the master over it again.

ghost use Rattle.std.specs.Prelude.{◌≡◌, ◌≤◌, true, [], IfErr, IfOk, IfSome, nat_le, ◌&&◌, length, option_map, option_and_then};
ghost use Rattle.std.specs.FinMap as table;
ghost use Rattle.disk.specs.Failing.{FuseState};
ghost use Rattle.disk.specs.Writes.{LeftBy};
ghost use Rattle.protocol.specs.Logged.{new_log};
ghost use Rattle.protocol.specs.Master.{stopped_master};
ghost use Rattle.protocol.specs.MasterStep.{new_master};
ghost use Rattle.protocol.specs.Sending.{handle_of};
ghost use Rattle.protocol.specs.Tables.{element_at, moment_limit};
ghost use Rattle.stored_log.specs.Kept.{IsDiskSize, LeavesDecided};
ghost use Rattle.memory_nodes.specs.MasterSlots.{IsLetGo};
ghost use Rattle.memory_nodes.specs.Starts.{IsOfMemory};

use crate::showing::{file_of, handle_in};
use crate::start_fault::StartFault;
use cell_world::master::{CellMaster, RestartedMaster, StoppableMaster};
use disk::{Disk, FuseDisk, MemDisk, StopPlan};
use gfs_types::config::Config;
use gfs_types::ghost_list::GhostList;
use gfs_types::ids::{FileId, Handle, Moment};
use gfs_types::path::Path;
use gfs_types::torn::Torn;
use master_cell::logged_master::LoggedMaster;
use master_cell::shown::ShownFiles;
use messages::event::StepOut;
use messages::message::Message;
use protocol::step_outcome::{Outcome, down_output, no_output};
use std::alloc::{Allocator, Global};
use std::marker::Model;
use stored_log::disk_log::DiskLog;

/// The master's log on its disk.
pub type WorldLog = DiskLog<FuseDisk<Global>>;

/// The master over its log, whose names lie in `A`.
type WorldMaster<A> = LoggedMaster<WorldLog, A>;

/// The master over a log on a disk in memory, which may be stopped and restarted, and what is shown of its files. Where the master can't be up
/// again, its log or its disk stays here, and the master is down. Its names lie in `A`.
pub struct MasterSlot<A: Allocator> {
    alloc: Global,
    config: Config,
    server_count: u16,
    names: A,
    master: Option<WorldMaster<A>>,
    // where the master could not be up: its log
    log: Option<WorldLog>,
    // or its disk, where the log could not be opened
    disk: Option<FuseDisk<Global>>,
    // and the log as it was, for proofs alone
    before: GhostList<WorldLog>,
    files: ShownFiles,
    stops: StopPlan,
}

// Stands here, once, so that no crate above proves the drops of all that a slot owns.
impl<A: Allocator> Drop for MasterSlot<A> {
    fn drop(self) {
        let Self {
            alloc: _alloc,
            config: _,
            server_count: _,
            names: _names,
            master: _master,
            log: _log,
            disk: _disk,
            before: _before,
            files: _files,
            stops: _stops,
        } = self;
    }
}

impl<A: Allocator> Model for MasterSlot<A> {
    ghost use Rattle.std.specs.Prelude.{◌≡◌, ◌≤◌, true};
    ghost use Rattle.std.specs.Coded.{codes, coded_ℕ, coded_list};
    ghost use Rattle.std.specs.FinMap as map;
    ghost use Rattle.master_cell.specs.Shown.{shown_in};
    ghost use Rattle.memory_nodes.specs.MasterSlots.{IsDiskLeft, IsMasterOf, SlotState, slot_state};

    ghost Value = { SlotState };

    ghost coded = { Prim.hlevel (codes, map.code, coded_list, coded_ℕ) };

    ghost view = { λ s. record { state = slot_state s.config s.server_count s.master s.log s.before.items; files = shown_in s.files } };

    ghost invariant = { λ s. (s.config.lease_ms ≤ 3600000)
        × (s.config.skew_ms ≤ 60000)
        × IsMasterOf s.config s.server_count (slot_state s.config s.server_count s.master s.log s.before.items)
        × IsDiskLeft s.config s.server_count s.master s.log s.before.items s.disk
        × ((slot_state s.config s.server_count s.master s.log s.before.items).up ≡ true → shown_in s.files ≡ (slot_state s.config s.server_count s.master s.log s.before.items).logged.table.files) };
}

// A log on a new disk of so many bytes.
#[tactic(auto, using(crate::proofs::Settings::disk_size))]
fn new_log(alloc: Global, log_bytes: u64) -> Result<WorldLog, StartFault>
    requires { IsDiskSize log_bytes }
    ensures new { IfOk result (λ l. l.disk ≡ new_log) }
    ensures decided { IfOk result (λ l. l.under_way ≡ []) }
    ensures fault { IfErr result IsOfMemory }
{
    let Ok(disk) = MemDisk::new(alloc, log_bytes as usize) else {
        return Err(StartFault::NoMemory);
    };
    let Ok(log) = DiskLog::new(alloc, FuseDisk::new(disk)) else {
        return Err(StartFault::NoMemory);
    };
    Ok(log)
}

// Whether a log's disk may have so many bytes.
fn is_log_size(size: usize) -> bool
    ensures { result ≡ (nat_le 4096 size && nat_le size 1073741824) }
{
    4096 <= size && size <= 1_073_741_824
}

// The log of a master that is let go, or the one that is held.
fn log_of<A: Allocator + Clone>(
    master: Option<WorldMaster<A>>,
    held: Option<WorldLog>,
) -> Option<WorldLog>
    ensures { IsLetGo master held result }
{
    match master {
        Some(master) => Some(master.into_log()),
        None => held,
    }
}

impl<A: Allocator + Clone> MasterSlot<A> {
    /// The master of a new cell, over a new disk: the first epoch is logged.
    pub fn new(
        alloc: Global,
        config: Config,
        server_count: u16,
        names: A,
    ) -> Result<MasterSlot<A>, StartFault>
        requires log { IsDiskSize config.log_bytes }
        requires lease { config.lease_ms ≤ 3600000 }
        requires skew { config.skew_ms ≤ 60000 }
        ensures state { IfOk result (λ m. m.state ≡ new_master config server_count) }
        ensures files { IfOk result (λ m. m.files ≡ table.empty) }
        ensures fault { IfErr result IsOfMemory }
    {
        let Ok(own_names) = names.clone() else {
            return Err(StartFault::NoMemory);
        };
        let log = new_log(alloc, config.log_bytes)?;
        let Ok(master) = LoggedMaster::new(alloc, config, server_count, log, own_names) else {
            return Err(StartFault::NoMemory);
        };
        let files = ShownFiles::new(alloc);
        Ok(MasterSlot {
            alloc,
            config,
            server_count,
            names,
            master: Some(master),
            log: None,
            disk: None,
            before: GhostList::new(),
            files,
            stops: StopPlan::new(),
        })
    }

    /// The handle of a file's chunk of this index, from 0, while the master is up.
    pub fn current_handle_at(&self, file: FileId, index: u64) -> Option<Handle>
        requires { self.now.state.up ≡ true }
        ensures { result ≡ option_map handle_of (option_and_then (λ handles. element_at handles index) (table.get self.now.state.logged.table.files file.0)) }
    {
        handle_in(&self.files, file, index)
    }

    // The disk of the master's log. The master is put down and let go.
    fn take_disk(&mut self) -> Option<FuseDisk<Global>>
        ensures down { self.new ≡ record self.old { state = stopped_master self.old.state self.old.state.disk self.old.state.under_way } }
        ensures left { IfSome result (λ f. LeavesDecided (λ (d : FuseState). LeftBy d.disk) f self.old.state.disk self.old.state.under_way) }
    {
        match log_of(self.master.take(), self.log.take()) {
            Some(log) => {
                self.before = GhostList::new().and(&log);
                self.disk = None;
                Some(log.into_disk())
            }
            None => self.disk.take(),
        }
    }
}

impl<A: Allocator + Clone> CellMaster for MasterSlot<A> {
    ghost state = { λ m. m.state };

    ghost files = { λ m. m.files };

    fn is_up(&self) -> bool {
        match &self.master {
            Some(master) => master.is_up(),
            None => false,
        }
    }

    fn file(&self, path: &Path) -> Option<FileId> {
        match &self.master {
            Some(master) => file_of(master, path),
            None => None,
        }
    }

    fn handle_at(&self, file: FileId, index: u64) -> Option<Handle> {
        handle_in(&self.files, file, index)
    }

    fn stop(&mut self) {
        let Some(master) = &mut self.master else {
            return;
        };
        master.stop();
    }

    fn step(&mut self, now: Moment, message: Option<&Message>) -> Outcome {
        let Some(master) = &mut self.master else {
            return Outcome::nothing(self.alloc);
        };
        master.step(now, message, &mut self.files)
    }
}

impl<A: Allocator + Clone> RestartedMaster for MasterSlot<A> {
    fn restart(&mut self, now: Moment) -> StepOut {
        let Some(disk) = self.take_disk() else {
            return down_output(self.alloc);
        };
        let disk = self.stops.restart(disk);
        if !is_log_size(disk.size()) {
            self.disk = Some(disk);
            return down_output(self.alloc);
        }
        let log = match DiskLog::open(self.alloc, disk) {
            Ok(log) => log,
            Err((disk, _fault)) => {
                self.disk = Some(disk);
                return down_output(self.alloc);
            }
        };
        self.master = None;
        let Ok(names) = self.names.clone() else {
            self.log = Some(log);
            return down_output(self.alloc);
        };
        match LoggedMaster::open(
            self.alloc,
            self.config,
            self.server_count,
            log,
            now,
            names,
            &mut self.files,
        ) {
            Ok(master) => {
                self.master = Some(master);
                no_output(self.alloc)
            }
            Err((log, _cause)) => {
                self.log = Some(log);
                down_output(self.alloc)
            }
        }
    }
}

impl<A: Allocator + Clone> StoppableMaster for MasterSlot<A> {
    fn fuse(&mut self, calls: u64, torn: Torn) {
        if !self.is_up() {
            self.stops.stop_after_restart(calls, torn);
            return;
        }
        if let Some(master) = &mut self.master {
            master.arm(calls);
            self.stops.tear(torn);
        }
    }
}

//! The master.

ghost use Rattle.std.specs.Prelude.{◌≡◌, ◌<◌, ◌≤◌, [], true, IfErr, IfOk, OnErr, if◌then◌else◌, Some, None};
ghost use Rattle.std.specs.Option.{option_copied};
ghost use Rattle.protocol.specs.Tables.{moment_limit};
ghost use Rattle.protocol.specs.Logged.{new_log};
ghost use Rattle.protocol.specs.MasterStep.{new_master};
ghost use Rattle.protocol.specs.Conforms.{MasterSteps, MasterRestarts};
ghost use Rattle.protocol.specs.Master.{stopped_master};
ghost use Rattle.protocol.specs.World.{files_seen};
ghost use Rattle.protocol.specs.Causes.{IsDownFor};
ghost use Rattle.protocol.specs.declared.down_cause.DownCause.TheVariants as causes;
ghost use Rattle.master_cell.specs.Shown.{shown_in};
ghost use Rattle.master_cell.specs.Inputs.{input_of};
ghost use Rattle.master_cell.specs.Opens.{HasNoRoom, OpensNot, OpensUp, down_over};

use crate::counting::can_count;
use crate::drafted::drafts;
use crate::ended::{cause_since, makes_all, outcome_of};
use crate::fault::MasterFault;
use crate::shown::ShownFiles;
use crate::started::{first_plan, opens_over};
use disk::Disk;
use gfs_types::config::Config;
use gfs_types::ids::Moment;
use log_records::record::Record;
use master_plan::plan::Plan;
use master_state::state::State;
use messages::event::StepOut;
use messages::message::Message;
use operation_log::log::OperationLog;
use operation_log::reopened::ReopenedLog;
use protocol::down_cause::DownCause;
use protocol::step_outcome::{Outcome, down_output, no_output};
use std::alloc::{Allocator, Global};
use std::marker::Model;
use stored_log::disk_log::DiskLog;

/// The master over a log. While it is up, nothing is under way on the log's disk. Its names lie in `A`.
pub struct LoggedMaster<L: OperationLog, A: Allocator> {
    config: Config,
    server_count: u16,
    log: L,
    names: A,
    up: bool,
    plan: Plan<A>,
}

// Stands here, once, so that no function that lets one go, here or above, takes its fields apart.
impl<L: OperationLog + Drop, A: Allocator> Drop for LoggedMaster<L, A> {
    fn drop(self) {
        let Self {
            config: _,
            server_count: _,
            log: _log,
            names: _names,
            up: _,
            plan: _plan,
        } = self;
    }
}

impl<L: OperationLog, A: Allocator> Model for LoggedMaster<L, A> {
    ghost use Rattle.std.specs.Prelude.{◌≡◌, ◌≤◌, true, []};
    ghost use Rattle.std.specs.Coded.{codes, coded_ℕ, coded_list};
    ghost use Rattle.std.specs.FinMap as map;
    ghost use Rattle.master_cell.specs.Standing.{LoggedMasterState, logged_master, IsResting};

    ghost Value = { LoggedMasterState };

    ghost coded = { Prim.hlevel (codes, map.code, coded_list, coded_ℕ) };

    ghost view = { λ m. logged_master m.up (L.disk m.log) (L.under_way m.log) m.config m.server_count m.plan (L.failed m.log) };

    ghost invariant = { λ m. (m.config.lease_ms ≤ 3600000) × (m.config.skew_ms ≤ 60000) × (m.up ≡ true → IsResting (L.under_way m.log) m.config m.server_count m.plan) };
}

impl<L: OperationLog + Drop, A: Allocator + Clone> LoggedMaster<L, A> {
    /// The master of a new cell, whose log is new: the first epoch is logged. The settings are within their ranges.
    pub fn new(
        alloc: Global,
        config: Config,
        server_count: u16,
        log: L,
        names: A,
    ) -> Result<Self, MasterFault>
        requires lease { config.lease_ms ≤ 3600000 }
        requires skew { config.skew_ms ≤ 60000 }
        requires new { L.disk log ≡ new_log }
        requires decided { L.under_way log ≡ [] }
        ensures { IfOk result (λ m. m.state ≡ new_master config server_count) }
    {
        let kept = names.clone()?;
        let Ok(plan) = first_plan(alloc, config, server_count, names) else {
            return Err(MasterFault::NoMemory);
        };
        let mut log = log;
        if let Err(fault) = log.append(&Record::Epoch { epoch: 1 }) {
            return Err(MasterFault::Log(fault));
        }
        Ok(LoggedMaster {
            config,
            server_count,
            log,
            names: kept,
            up: true,
            plan,
        })
    }
}

impl<L: OperationLog + Drop, A: Allocator + Clone> LoggedMaster<L, A> {
    /// Opens the master over a log that an earlier one may have left, as a restart does: it reads the log, and logs a new epoch. An empty log
    /// is that of a new cell. The chunks of its files are put into `shown`. Where it can't be up, its log comes back, with what is under way,
    /// and why. The settings are within their ranges.
    pub fn open(
        alloc: Global,
        config: Config,
        server_count: u16,
        log: L,
        now: Moment,
        names: A,
        shown: &mut ShownFiles,
    ) -> Result<Self, (L, DownCause)>
        requires lease { config.lease_ms ≤ 3600000 }
        requires skew { config.skew_ms ≤ 60000 }
        requires moment { now.0 ≤ moment_limit }
        requires decided { L.under_way log ≡ [] }
        ensures opens { IfOk result (λ m. OpensUp (down_over config server_count (L.disk log) []) now.0 m.state) }
        ensures fails { IfErr result (λ e. OpensNot (down_over config server_count (L.disk log) []) now.0 (L.disk e.0) (L.under_way e.0)) }
        ensures files { IfOk result (λ m. shown_in shown.new ≡ m.state.logged.table.files) }
        ensures files_of_error { OnErr result (shown_in shown.new ≡ shown_in shown.old) }
        // It is its disk's only where that has failed, and want of room only where the log has none for the new epoch.
        ensures device { IfErr result (λ e. e.1 ≡ causes.Device → L.failed log < L.failed e.0) }
        ensures room { IfErr result (λ e. e.1 ≡ causes.NoRoom → HasNoRoom config server_count (L.disk log) now.0) }
    {
        let Ok(kept) = names.clone() else {
            return Err((log, DownCause::Memory));
        };
        let mut log = log;
        let plan = match opens_over(&mut log, alloc, config, server_count, names, now, shown) {
            Ok(plan) => plan,
            Err(cause) => return Err((log, cause)),
        };
        Ok(LoggedMaster {
            config,
            server_count,
            log,
            names: kept,
            up: true,
            plan,
        })
    }

    /// The log as it is, with what is under way on it.
    pub fn into_log(self) -> L
        ensures disk { L.disk result ≡ self.state.disk }
        ensures under_way { L.under_way result ≡ self.state.under_way }
        ensures failed { L.failed result ≡ self.failed }
    {
        let Self {
            config: _,
            server_count: _,
            log,
            names: _names,
            up: _,
            plan: _plan,
        } = self;
        log
    }
}

impl<L: OperationLog, A: Allocator + Clone> LoggedMaster<L, A> {
    /// Whether it is up. One that is down takes no step.
    pub fn is_up(&self) -> bool
        ensures { result ≡ self.now.state.up }
    {
        self.up
    }

    /// What the log keeps, while it is up.
    pub fn state(&self) -> Option<&State<A>>
        ensures { option_copied result ≡ (if self.now.state.up then Some self.now.state.logged else None) }
    {
        if self.up {
            Some(self.plan.state())
        } else {
            None
        }
    }

    /// It is put down in a step, before it changed anything. Takes no memory.
    pub fn stop(&mut self)
        requires { self.old.state.up ≡ true }
        ensures state { self.new.state ≡ stopped_master self.old.state self.old.state.disk [] }
        ensures failed { self.new.failed ≡ self.old.failed }
    {
        self.up = false;
    }

    /// A step on a message, or on a tick. While the master is up the chunks of its files are shown. Where it is up after the
    /// step, those that were changed are shown anew; else all that was shown stays. A step that might raise a counter past its limit
    /// changes nothing and gives nothing. Where the master goes down in it, it says why.
    #[tactic(auto, using(crate::proofs::Steps::stays, crate::proofs::Steps::drafted_rests))]
    pub fn step(
        &mut self,
        now: Moment,
        message: Option<&Message>,
        shown: &mut ShownFiles,
    ) -> Outcome
        requires moment { now.0 ≤ moment_limit }
        requires shown { self.old.state.up ≡ true → shown_in shown.old ≡ self.old.state.logged.table.files }
        ensures steps { MasterSteps self.old.state now.0 (input_of (option_copied message.entry)) result.out result.seen self.new.state }
        ensures files { shown_in shown.new ≡ files_seen self.new.state (shown_in shown.old) }
        ensures cause { IsDownFor result.out.down result.cause self.old.failed self.new.failed }
    {
        let alloc = self.plan.alloc();
        if !self.up {
            return Outcome::nothing(alloc);
        }
        if !can_count(&self.plan, message) {
            return Outcome::nothing(alloc);
        }
        self.up = false;
        let Ok(draft) = drafts(&self.log, &mut self.plan, now, message, shown) else {
            return Outcome::down_for(alloc, DownCause::Memory);
        };
        let before = self.log.failures();
        if !makes_all(&mut self.log, &self.plan, &draft.changes) {
            return Outcome::down_for(alloc, cause_since(&self.log, before));
        }
        self.up = true;
        shown.put(draft.copies);
        outcome_of(&mut self.plan)
    }
}

impl<L: ReopenedLog, A: Allocator + Clone> LoggedMaster<L, A> {
    /// It begins again, whether it was up or down: it reads its log, and logs a new epoch. Where the master is up after it, the
    /// chunks of its files are put into `shown`, which else stays.
    #[tactic(auto, using(crate::proofs::Restarts::not_begun, crate::proofs::Restarts::restarts))]
    pub fn restart(&mut self, now: Moment, shown: &mut ShownFiles) -> StepOut
        requires { now.0 ≤ moment_limit }
        ensures steps { MasterRestarts self.old.state now.0 result self.new.state }
        ensures files { shown_in shown.new ≡ files_seen self.new.state (shown_in shown.old) }
    {
        let alloc = self.plan.alloc();
        self.up = false;
        let Ok(names) = self.names.clone() else {
            return down_output(alloc);
        };
        let Ok(none) = self.names.clone() else {
            return down_output(alloc);
        };
        let Ok(()) = self.log.reopen() else {
            return down_output(alloc);
        };
        self.plan.forget_names(none);
        let opened = opens_over(
            &mut self.log,
            alloc,
            self.config,
            self.server_count,
            names,
            now,
            shown,
        );
        let Ok(plan) = opened else {
            return down_output(alloc);
        };
        self.plan = plan;
        self.up = true;
        no_output(alloc)
    }
}

impl<D: Disk, A: Allocator> LoggedMaster<DiskLog<D>, A> {
    /// The log's disk lets so many calls pass and fails each later one, where it can be told to fail. Changes no byte.
    pub fn arm(&mut self, calls: u64)
        ensures { self.new ≡ self.old }
    {
        self.log.arm(calls);
    }
}

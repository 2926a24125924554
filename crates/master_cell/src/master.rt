//! The master over a disk.

ghost use Rattle.std.specs.Prelude.{◌≡◌, ◌≤◌, ◌<◌, List, IfErr, IfOk, length};
ghost use Rattle.std.specs.Option.{option_copied};
ghost use Rattle.log_records.specs.declared.record.Record.{Record};
ghost use Rattle.oplog.specs.NewLogs.{IsLogOf};
ghost use Rattle.protocol.specs.Conforms.{MasterSteps};
ghost use Rattle.protocol.specs.Tables.{moment_limit};
ghost use Rattle.protocol.specs.declared.seen.Seen.{Seen};
ghost use Rattle.operation_log.specs.declared.fault.OperationLogFault.TheVariants.{Damaged, Device};
ghost use Rattle.stored_log.specs.Kept.{IsDiskSize, LeavesDecided};
ghost use Rattle.master_cell.specs.Disks.{FailsOver, LacksRoom, OpensOver};
ghost use Rattle.master_cell.specs.Inputs.{input_of};
ghost use Rattle.master_cell.specs.declared.opening_fault.OpeningFault.TheVariants as opening_faults;
ghost use Rattle.protocol.specs.Causes.{IsDownFor};
ghost use Rattle.protocol.specs.declared.down_cause.DownCause.TheVariants as causes;

use crate::logged_master::LoggedMaster;
use crate::opening_fault::OpeningFault;
use crate::shown::ShownFiles;
use disk::Disk;
use gfs_types::config::Config;
use gfs_types::ids::Moment;
use messages::event::{NodeInput, StepOut};
use messages::message::Message;
use protocol::step_outcome::Outcome;
use std::alloc::{Allocator, Global};
use std::marker::Model;
use stored_log::disk_log::DiskLog;

/// What the master takes a step on.
pub type MasterIn = NodeInput;

// The message that a step is taken on; none at a tick.
fn message_in(input: &MasterIn) -> Option<&Message>
    ensures { input_of (option_copied result) ≡ input.now }
{
    match input {
        NodeInput::Deliver(message) => Some(message),
        NodeInput::Tick => None,
    }
}

/// The master over the disk of its log. Its names lie in `A`.
#[derive(Drop)]
pub struct Master<A: Allocator, D: Disk> {
    master: LoggedMaster<DiskLog<D>, A>,
    files: ShownFiles,
}

impl<A: Allocator, D: Disk> Model for Master<A, D> {
    ghost use Rattle.std.specs.Prelude.{◌≡◌, true};
    ghost use Rattle.std.specs.Coded.{codes, coded_ℕ, coded_list};
    ghost use Rattle.std.specs.FinMap as map;
    ghost use Rattle.master_cell.specs.Shown.{shown_in};
    ghost use Rattle.master_cell.specs.Standing.{LoggedMasterState};

    ghost Value = { LoggedMasterState };

    ghost coded = { Prim.hlevel (codes, map.code, coded_list, coded_ℕ) };

    ghost view = { λ m. m.master };

    ghost invariant = { λ m. m.master.state.up ≡ true → shown_in m.files ≡ m.master.state.logged.table.files };
}

impl<A: Allocator + Clone, D: Disk + Drop> Master<A, D> {
    /// Opens the master over a disk of 4,096 bytes to 1 GiB that an earlier one may have left: it reads the log, and logs a new epoch. A disk
    /// on which no log stands is that of a new cell. Where it can't be up, the disk comes back, and why. The settings are within their ranges.
    pub fn open(
        alloc: Global,
        config: Config,
        servers: u16,
        disk: D,
        now: Moment,
        names: A,
    ) -> Result<Master<A, D>, (D, OpeningFault)>
        requires lease { config.lease_ms ≤ 3600000 }
        requires skew { config.skew_ms ≤ 60000 }
        requires moment { now.0 ≤ moment_limit }
        requires size { IsDiskSize (length (D.seen disk)) }
        ensures opens { IfOk result (λ m. OpensOver config servers (D.seen disk) now.0 m.state) }
        ensures fails { IfErr result (λ e. FailsOver D.seen D.may_leave D.moment D.left_since config servers disk now.0 e.0) }
        // A log is told as one whose disk failed only where it did.
        ensures cause { IfErr result (λ e. e.1 ≡ opening_faults.Log Device → D.failed disk < D.failed e.0) }
        // And as damaged only where none stands.
        ensures undamaged { (items records : List Record) → IsLogOf items records (D.seen disk) → IfErr result (λ e. e.1 ≡ opening_faults.Log Damaged → ⊥) }
        // The master is told as down for its disk only where that failed, and for want of room only where the log that stood there has none.
        ensures device { IfErr result (λ e. e.1 ≡ opening_faults.Down causes.Device → D.failed disk < D.failed e.0) }
        ensures room { IfErr result (λ e. e.1 ≡ opening_faults.Down causes.NoRoom → LacksRoom config servers (D.seen disk) now.0) }
    {
        let log = match DiskLog::open(alloc, disk) {
            Ok(log) => log,
            Err((disk, fault)) => return Err((disk, OpeningFault::Log(fault))),
        };
        let mut files = ShownFiles::new(alloc);
        let master = match LoggedMaster::open(alloc, config, servers, log, now, names, &mut files) {
            Ok(master) => master,
            Err((log, cause)) => return Err((log.into_disk(), OpeningFault::Down(cause))),
        };
        Ok(Master { master, files })
    }

    /// The disk as it is. A stop leaves the log on it, with what is under way or without it.
    pub fn into_disk(self) -> D
        ensures left { LeavesDecided D.may_leave result self.state.disk self.state.under_way }
        ensures failed { D.failed result ≡ self.failed }
    {
        let Self {
            master,
            files: _files,
        } = self;
        master.into_log().into_disk()
    }
}

impl<A: Allocator + Clone, D: Disk> Master<A, D> {
    /// Whether it is up. One that is down takes no step.
    pub fn is_up(&self) -> bool
        ensures { result ≡ self.now.state.up }
    {
        self.master.is_up()
    }

    /// A step on a message, or on a tick.
    #[tactic(auto, using(crate::proofs::Disks::steps_seen))]
    pub fn step(&mut self, now: Moment, input: MasterIn) -> StepOut
        requires { now.0 ≤ moment_limit }
        ensures { (seen : List Seen) × MasterSteps self.old.state now.0 input result seen self.new.state }
    {
        let message = message_in(&input);
        let Outcome {
            out,
            seen: _seen,
            cause: _,
        } = self.take_step(now, message);
        out
    }

    /// The same, with what is seen of it, and why the master goes down where it does: for its disk only where that has failed.
    pub fn take_step(&mut self, now: Moment, message: Option<&Message>) -> Outcome
        requires { now.0 ≤ moment_limit }
        ensures steps { MasterSteps self.old.state now.0 (input_of (option_copied message.entry)) result.out result.seen self.new.state }
        ensures cause { IsDownFor result.out.down result.cause self.old.failed self.new.failed }
    {
        self.master.step(now, message, &mut self.files)
    }

    /// Lets so many calls of the disk pass and fails each later one, where the disk can be told to fail. Changes no byte.
    pub fn arm(&mut self, calls: u64)
        ensures { self.new ≡ self.old }
    {
        self.master.arm(calls);
    }
}

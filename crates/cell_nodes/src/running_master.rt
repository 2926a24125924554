//! The master of a running cell, over a disk in memory.

ghost use Rattle.std.specs.Prelude.{◌≡◌, ◌≤◌, IfOk};
ghost use Rattle.protocol.specs.MasterStep.{new_master};
ghost use Rattle.stored_log.specs.Kept.{IsDiskSize};

use cell_journal::journal_entry::StepCause;
use cell_seats::stepper::{NodeStep, Stepper};
use cell_world::master::CellMaster;
use gfs_types::call::Call;
use gfs_types::config::Config;
use gfs_types::ids::Moment;
use gfs_types::no_memory::NoMemory;
use memory_nodes::master_slot::MasterSlot;
use running_nodes::master_stepper::MasterNode;
use std::alloc::Global;

/// The master of a running cell. At a restart its disk stops, and it is opened over what that left.
pub struct RunningMaster {
    pub node: MasterNode<MasterSlot<Global>>,
}

// Stands here, once, so that no crate above proves the drops of all that a master owns.
impl Drop for RunningMaster {
    fn drop(self) {
        let Self { node: _node } = self;
    }
}

impl RunningMaster {
    /// The master of a new cell, over a new disk: its log has no record but its first epoch.
    pub fn new(alloc: Global, config: Config, servers: u16) -> Result<RunningMaster, NoMemory>
        requires log { IsDiskSize config.log_bytes }
        requires lease { config.lease_ms ≤ 3600000 }
        requires skew { config.skew_ms ≤ 60000 }
        ensures { IfOk result (λ m. ⟦<MasterSlot<Global> as CellMaster>⟧.state m.node.master ≡ new_master config servers) }
    {
        match MasterSlot::new(alloc, config, servers, alloc) {
            Ok(master) => Ok(RunningMaster {
                node: MasterNode { alloc, master },
            }),
            Err(_) => Err(NoMemory),
        }
    }
}

impl Stepper for RunningMaster {
    ghost stands = { λ m s. ⟦<MasterNode<MasterSlot<Global>> as Stepper>⟧.stands m.node s };

    fn may_take(&self, cause: &StepCause) -> bool {
        self.node.may_take(cause)
    }

    fn step(&mut self, now: Moment, cause: &StepCause, call: Option<Call>) -> NodeStep {
        self.node.step(now, cause, call)
    }
}

//! A client of a running cell, which takes its steps in its caller's thread.

ghost use Rattle.std.specs.Prelude.{◌≡◌, ◌<◌, IfOk};
ghost use Rattle.protocol.specs.Client.{new_client};

use crate::client_stepper::ClientNode;
use cell_journal::journal_entry::StepCause;
use cell_seats::stepper::{NodeStep, Stepper};
use client::client::Client;
use gfs_types::call::Call;
use gfs_types::config::Config;
use gfs_types::ids::{ClientId, Moment};
use gfs_types::no_memory::NoMemory;
use std::alloc::Global;

/// A client of a running cell, as its caller has it.
pub type Seat = cell_seats::seat::Seat<RunningClient>;

/// A client of a running cell. Its drop stands here, once, so that no crate above proves those of all that a client owns.
pub struct RunningClient {
    pub node: ClientNode,
}

impl Drop for RunningClient {
    fn drop(self) {
        let Self { node: _node } = self;
    }
}

impl RunningClient {
    /// A client that made no call yet.
    pub fn new(alloc: Global, config: Config, id: ClientId) -> Result<RunningClient, NoMemory>
        requires { 0 < config.chunk }
        ensures { IfOk result (λ c. c.node.client ≡ new_client config id.0) }
    {
        match Client::new(alloc, config, id) {
            Ok(client) => Ok(RunningClient {
                node: ClientNode { client },
            }),
            Err(fault) => Err(fault),
        }
    }
}

impl Stepper for RunningClient {
    ghost stands = { λ n s. ⟦<ClientNode as Stepper>⟧.stands n.node s };

    fn may_take(&self, cause: &StepCause) -> bool {
        self.node.may_take(cause)
    }

    fn step(&mut self, now: Moment, cause: &StepCause, call: Option<Call>) -> NodeStep {
        self.node.step(now, cause, call)
    }
}

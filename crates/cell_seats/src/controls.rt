//! What the network and the nodes of a running cell are asked from outside.

ghost use Rattle.std.specs.Prelude.{◌≡◌, IfOk, replicate};
ghost use Rattle.cell_seats.specs.Controls.{WritesControls, no_policy, policy_in, raised, restarted};

use crate::mailboxes::Policy;
use cell_journal::written_words::{WordTable, WordWriter, raise, read, table_with, write};
use gfs_types::ids::Node;
use gfs_types::no_memory::NoMemory;
use std::alloc::Global;

/// How many numbers a policy has.
const NUMBERS: usize = 3;

/// Servers have the places of their numbers, from 1 to 64, and the master has the last one.
const PLACES: usize = 66;

const PLACE_OF_MASTER: usize = 65;

/// The policy of the network, and how often each node was asked to begin again.
#[derive(Drop)]
pub struct Controls {
    pub policy: WordTable,
    pub restarts: WordTable,
}

/// The one writer of the controls. It takes no memory.
#[derive(Drop)]
pub struct ControlWriter {
    pub policy: WordWriter,
    pub restarts: WordWriter,
}

/// Each message is to come once, and no node was asked to begin again.
pub fn new_controls(alloc: Global) -> Result<(Controls, ControlWriter), NoMemory>
    ensures asks { IfOk result (λ a. WritesControls a.0 a.1) }
    ensures policy { IfOk result (λ a. policy_in a.1.policy.me.0 ≡ no_policy) }
    ensures restarts { IfOk result (λ a. a.1.restarts.me.0 ≡ replicate 66 0) }
{
    let (policy, policy_writer) = table_with(alloc, zeros(alloc, NUMBERS)?)?;
    let (restarts, restarts_writer) = table_with(alloc, zeros(alloc, PLACES)?)?;
    let controls = Controls { policy, restarts };
    let control_writer = ControlWriter {
        policy: policy_writer,
        restarts: restarts_writer,
    };
    Ok((controls, control_writer))
}

fn zeros(alloc: Global, count: usize) -> Result<Vec<u64>, NoMemory>
    ensures { IfOk result (λ v. v.items ≡ replicate count 0) }
{
    Ok(Vec::from_elem(alloc, 0, count)?)
}

impl ControlWriter {
    /// The network's policy is this from now on.
    pub fn set_policy(&mut self, controls: &Controls, policy: Policy)
        requires { WritesControls controls.now self.old }
        ensures asks { WritesControls controls.now self.new }
        ensures policy { policy_in self.new.policy.me.0 ≡ policy }
        ensures restarts { self.new.restarts.me.0 ≡ self.old.restarts.me.0 }
    {
        write(&controls.policy, &mut self.policy, 0, policy.drop_every);
        write(&controls.policy, &mut self.policy, 1, policy.repeat_every);
        write(&controls.policy, &mut self.policy, 2, policy.hold_every);
    }

    /// A node is asked once more to begin again. A client never is, nor a server of a number past 64.
    pub fn ask_restart(&mut self, controls: &Controls, node: Node)
        requires { WritesControls controls.now self.old }
        ensures asks { WritesControls controls.now self.new }
        ensures policy { self.new.policy.me.0 ≡ self.old.policy.me.0 }
        ensures restarts { self.new.restarts.me.0 ≡ restarted self.old.restarts.me.0 node }
    {
        match node {
            Node::Master => self.raise(controls, PLACE_OF_MASTER),
            Node::Server(id) => {
                let place = usize::from(id.0);
                if place < PLACE_OF_MASTER {
                    self.raise(controls, place);
                }
            }
            Node::Client(_) => {}
        }
    }

    fn raise(&mut self, controls: &Controls, place: usize)
        requires { WritesControls controls.now self.old }
        ensures asks { WritesControls controls.now self.new }
        ensures policy { self.new.policy.me.0 ≡ self.old.policy.me.0 }
        ensures restarts { self.new.restarts.me.0 ≡ raised self.old.restarts.me.0 place }
    {
        if place < PLACES {
            raise(&controls.restarts, &mut self.restarts, place);
        }
    }
}

impl Controls {
    /// The network's policy now. While it is changed, some of its numbers may be those from before.
    pub fn policy(&self) -> Policy {
        Policy {
            drop_every: read(&self.policy, 0),
            repeat_every: read(&self.policy, 1),
            hold_every: read(&self.policy, 2),
        }
    }

    /// How often a node was asked to begin again.
    pub fn restarts(&self, node: Node) -> u64 {
        match node {
            Node::Master => read(&self.restarts, PLACE_OF_MASTER),
            Node::Server(id) => read(&self.restarts, usize::from(id.0)),
            Node::Client(_) => 0,
        }
    }
}

//! The master and the servers of a running cell, each with its journal.

ghost use Rattle.std.specs.Prelude.{◌≡◌, ◌≤◌, ◌<◌, ◌+◌, [], None, IfOk, OnOk, OnErr, IsTrue, is_none};
ghost use Rattle.gfs_types.specs.declared.ids.Node.TheVariants as node;
ghost use Rattle.gfs_types.specs.Settings.{first_out_of_range};
ghost use Rattle.protocol.specs.Server.{started_server};
ghost use Rattle.protocol_journal.specs.Journal.{own};
ghost use Rattle.replica_store.specs.Replicas.{new_server_disk};
ghost use Rattle.server_cell.specs.Settings.{IsForServers};
ghost use Rattle.cell_seats.specs.Registries.{IsSameRegistry};
ghost use Rattle.cell_nodes.specs.NewNodes.{IsFitting, IsNewNode};

use crate::running_master::RunningMaster;
use cell_seats::node_registry::NodeRegistry;
use cell_seats::slot::Slot;
use gfs_types::config::Config;
use gfs_types::ids::{Node, ServerId};
use gfs_types::no_memory::NoMemory;
use memory_nodes::making;
use memory_nodes::making::new_server;
use running_nodes::running_server::RunningServer;
use std::alloc::Global;

/// What the master's lock guards.
pub type MasterSlot = Slot<RunningMaster>;

/// What a server's lock guards.
pub type ServerSlot = Slot<RunningServer>;

/// Whether the settings are in their ranges, and so in the bounds that nodes ask for.
pub fn are_fitting(config: &Config) -> bool
    ensures range { result ≡ is_none (first_out_of_range config.now) }
    ensures in_range { IsTrue result → first_out_of_range config.now ≡ None }
    ensures fits { IsTrue result → IsFitting config.now }
{
    making::are_fitting(config)
}

/// The master with its journal, which is the first node.
pub fn master_slot(alloc: Global, registry: &mut NodeRegistry) -> Result<MasterSlot, NoMemory>
    requires fits { IsFitting registry.old.config }
    requires first { registry.old.registered ≡ 0 }
    requires unused { own node.Master registry.old.writer.me.0.of.base ≡ [] }
    ensures same { IsSameRegistry registry.old registry.new }
    ensures ok { OnOk result (registry.new.registered ≡ 1) }
    ensures err { OnErr result (registry.new.registered ≡ 0) }
    ensures slot { IfOk result (λ s. IsNewNode node.Master registry.old.writer.me.0 s.node s.view) }
{
    let master = RunningMaster::new(alloc, registry.config, registry.servers)?;
    let journal = registry.next(Node::Master)?;
    Ok(Slot::new(alloc, journal, master))
}

// A server over a new disk, which has no replica.
fn running_server(alloc: Global, config: Config, id: ServerId) -> Result<RunningServer, NoMemory>
    requires { IsForServers config }
    ensures { IfOk result (λ r. r.server ≡ started_server config id.0 (new_server_disk config.chunk config.block config.slots) 0) }
{
    match making::new_server(alloc, config, id) {
        Ok(server) => Ok(RunningServer { alloc, server }),
        Err(_) => Err(NoMemory),
    }
}

/// A server with its journal.
pub fn server_slot(
    alloc: Global,
    registry: &mut NodeRegistry,
    id: ServerId,
) -> Result<ServerSlot, NoMemory>
    requires fits { IsFitting registry.old.config }
    requires next { (registry.old.registered ≡ id.0) × (0 < id.0) × (id.0 ≤ registry.old.servers) }
    requires unused { own (node.Server id) registry.old.writer.me.0.of.base ≡ [] }
    ensures same { IsSameRegistry registry.old registry.new }
    ensures ok { OnOk result (registry.new.registered ≡ id.0 + 1) }
    ensures err { OnErr result (registry.new.registered ≡ id.0) }
    ensures slot { IfOk result (λ s. IsNewNode (node.Server id) registry.old.writer.me.0 s.node s.view) }
{
    let server = running_server(alloc, registry.config, id)?;
    let journal = registry.next(Node::Server(id))?;
    Ok(Slot::new(alloc, journal, server))
}

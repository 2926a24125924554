//! A client of a running cell, with its journal.

ghost use Rattle.std.specs.Prelude.{◌≡◌, ◌≤◌, ◌<◌, ◌+◌, [], false, IfOk, IfErr, OnOk, OnErr};
ghost use Rattle.gfs_types.specs.declared.ids.Node.TheVariants as node;
ghost use Rattle.protocol_journal.specs.Journal.{own};
ghost use Rattle.cell_journal.specs.WholeHistories.{is_retired};
ghost use Rattle.cell_seats.specs.Registries.{IsSameRegistry};
ghost use Rattle.cell_nodes.specs.NewNodes.{IsNewClient};
ghost use Rattle.cell_run.specs.declared.start_fault.StartFault.TheVariants.{NoMemory as OutOfMemory};

use crate::start_fault::StartFault;
use cell_seats::node_registry::NodeRegistry;
use cell_seats::slot::Slot;
use gfs_types::ids::ClientId;
use running_nodes::client_places::client_journal;
use running_nodes::running_client::RunningClient;
use std::alloc::Global;

/// What a client keeps.
pub type ClientSlot = Slot<RunningClient>;

/// A client with its journal.
pub fn client_slot(
    alloc: Global,
    registry: &mut NodeRegistry,
    id: ClientId,
) -> Result<ClientSlot, StartFault>
    requires least { 64 ≤ registry.old.config.chunk }
    requires next { (registry.old.registered ≡ registry.old.servers + id.0) × (0 < id.0) × (id.0 ≤ 64) }
    requires goes_on { is_retired registry.old.cell (node.Client id) ≡ false }
    requires unused { own (node.Client id) registry.old.writer.me.0.of.base ≡ [] }
    ensures same { IsSameRegistry registry.old registry.new }
    ensures ok { OnOk result (registry.new.registered ≡ registry.old.registered + 1) }
    ensures err { OnErr result (registry.new.registered ≡ registry.old.registered) }
    ensures fault { IfErr result (λ f. f ≡ OutOfMemory) }
    ensures slot { IfOk result (λ s. IsNewClient id registry.old.writer.me.0 s.node s.view) }
{
    let client = RunningClient::new(alloc, registry.config, id)?;
    let journal = client_journal(registry, id)?;
    Ok(Slot::new(alloc, journal, client))
}

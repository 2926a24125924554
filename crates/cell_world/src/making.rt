//! New cells.

ghost use Rattle.std.specs.Prelude.{◌≡◌, ◌<◌, length, map, IfOk};
ghost use Rattle.std.specs.FinMap as table;
ghost use Rattle.protocol.specs.Client.{new_client};
ghost use Rattle.protocol.specs.MasterStep.{new_master};
ghost use Rattle.protocol.specs.Server.{started_server};
ghost use Rattle.protocol.specs.Tables.{first_numbers};
ghost use Rattle.protocol.specs.World.{new_world};
ghost use Rattle.replica_store.specs.Replicas.{new_server_disk};
ghost use Rattle.cell_world.specs.Held.{IsHeldAs};

use crate::cell::CellState;
use crate::master::CellMaster;
use crate::record::CellRecord;
use client::client::Client;
use gfs_types::config::Config;
use gfs_types::ids::{ClientId, Moment};
use gfs_types::no_memory::NoMemory;
use server_cell::server_slot::ServerSlot;
use std::alloc::Global;

impl<M: CellMaster + Drop> CellState<M> {
    /// A new cell of a new master, new servers by their numbers, and new clients.
    pub fn new(
        alloc: Global,
        config: Config,
        master: M,
        servers: Vec<ServerSlot>,
        clients: u64,
    ) -> Result<CellState<M>, NoMemory>
        requires chunk { 0 < config.chunk }
        requires servers { servers.items ≡ map (λ s. started_server config s (new_server_disk config.chunk config.block config.slots) 0) (first_numbers (length servers.items)) }
        requires master { M.state master ≡ new_master config (length servers.items) }
        requires files { M.files master ≡ table.empty }
        ensures { IfOk result (λ cell. IsHeldAs (new_world config (length servers.items) clients) cell) }
    {
        let clients = new_clients(alloc, config, clients)?;
        Ok(CellState {
            config,
            master,
            servers,
            clients,
            record: CellRecord::new(alloc),
            greatest: Moment(0),
        })
    }
}

#[tactic(auto, using(crate::proofs::Made::one_more))]
fn new_clients(alloc: Global, config: Config, count: u64) -> Result<Vec<Client>, NoMemory>
    requires { 0 < config.chunk }
    ensures { IfOk result (λ all. all.items ≡ map (new_client config) (first_numbers count)) }
{
    let mut all = Vec::new(alloc);
    for before in 0..count {
        all.push(Client::new(alloc, config, ClientId(before + 1))?)?;
    }
    Ok(all)
}

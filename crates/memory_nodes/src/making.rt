//! The nodes of a new cell, over disks in memory.

ghost use Rattle.std.specs.Prelude.{◌≡◌, ◌≤◌, length, map, IfOk, IfErr, IsTrue, is_none};
ghost use Rattle.gfs_types.specs.Settings.{first_out_of_range};
ghost use Rattle.protocol.specs.Server.{started_server};
ghost use Rattle.protocol.specs.Tables.{first_numbers};
ghost use Rattle.replica_store.specs.Replicas.{new_server_disk};
ghost use Rattle.server_cell.specs.Settings.{IsForServers};
ghost use Rattle.memory_nodes.specs.Starts.{IsOfMemory, is_count};
ghost use Rattle.stored_log.specs.Kept.{IsDiskSize};

use crate::start_fault::StartFault;
use disk::MemDisk;
use gfs_types::config::Config;
use gfs_types::ids::{Moment, ServerId};
use gfs_types::path::Path;
use namespace::node::{NameNode, Namespace};
use path_trie::trie::Trie;
use server_cell::server_slot::ServerSlot;
use std::alloc::{Allocator, Global};
use store_disk::Layout;

/// The servers that a cell may have, and the clients.
pub const MAX_NODES: u64 = 64;

/// Whether a cell may have so many servers, or clients.
pub fn is_count(count: u64) -> bool
    ensures { result ≡ is_count count }
{
    (1..=MAX_NODES).contains(&count)
}

/// Whether the settings are in their ranges, and so in the bounds that nodes ask for.
pub fn are_fitting(config: &Config) -> bool
    ensures range { result ≡ is_none (first_out_of_range config.now) }
    ensures lease { IsTrue result → config.now.lease_ms ≤ 3600000 }
    ensures skew { IsTrue result → config.now.skew_ms ≤ 60000 }
    ensures servers { IsTrue result → IsForServers config.now }
    ensures log { IsTrue result → IsDiskSize config.now.log_bytes }
{
    config.check().is_ok()
}

/// The place of a new server, over a new disk.
pub fn new_server(alloc: Global, config: Config, id: ServerId) -> Result<ServerSlot, StartFault>
    requires { IsForServers config }
    ensures new { IfOk result (λ s. s ≡ started_server config id.0 (new_server_disk config.chunk config.block config.slots) 0) }
    ensures fault { IfErr result IsOfMemory }
{
    let layout = Layout::new(config.chunk, config.block, config.slots);
    let Ok(disk) = MemDisk::new(alloc, layout.disk_size()) else {
        return Err(StartFault::NoMemory);
    };
    let Ok(server) = ServerSlot::open(alloc, config, id, disk, Moment(0)) else {
        return Err(StartFault::NoMemory);
    };
    Ok(server)
}

/// So many new servers, by their numbers.
#[tactic(auto, using(cell_world::proofs::Made::one_more))]
pub fn new_servers(alloc: Global, config: Config, count: u16) -> Result<Vec<ServerSlot>, StartFault>
    requires { IsForServers config }
    ensures new { IfOk result (λ all. all.items ≡ map (λ s. started_server config s (new_server_disk config.chunk config.block config.slots) 0) (first_numbers count)) }
    ensures count { IfOk result (λ all. length all.items ≡ count) }
    ensures fault { IfErr result IsOfMemory }
{
    let mut all = Vec::new(alloc);
    for before in 0..count {
        let server = new_server(alloc, config, ServerId(before + 1))?;
        let Ok(()) = all.push(server) else {
            return Err(StartFault::NoMemory);
        };
    }
    Ok(all)
}

// Puts a directory's name, and tells whether there was room.
fn puts_directory<A: Allocator + Clone>(names: &mut Namespace<A>, path: &Path) -> bool {
    names.insert(path, NameNode::dir()).is_ok()
}

/// Whether the first names have room in `A`. They are put there and taken away again, so that the master's names find the same room.
pub fn have_room<A: Allocator + Clone>(alloc: Global, names: &A) -> Result<bool, StartFault>
    ensures fault { IfErr result IsOfMemory }
{
    let Ok(root) = Path::parse(alloc, "/") else {
        return Err(StartFault::NoMemory);
    };
    let Ok(gone) = Path::parse(alloc, "/.gone") else {
        return Err(StartFault::NoMemory);
    };
    let Ok(copy) = names.clone() else {
        return Ok(false);
    };
    let Ok(mut trial) = Trie::new(copy) else {
        return Ok(false);
    };
    Ok(puts_directory(&mut trial, &gone) && puts_directory(&mut trial, &root))
}

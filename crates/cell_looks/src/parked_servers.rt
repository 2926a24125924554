//! The servers of a parked cell.

ghost use Rattle.std.specs.Prelude.{◌≡◌, map, length, IfOk};
ghost use Rattle.cell_looks.specs.ParkedWorlds.{AreLed};

use cell_run::parked::Parked;
use gfs_types::no_memory::NoMemory;
use server_cell::server_slot::ServerSlot;
use std::alloc::Global;

/// The servers by their numbers, as the cell's whole history left them.
pub(crate) fn servers_of(alloc: Global, parked: &Parked) -> Result<Vec<&ServerSlot>, NoMemory>
    ensures count { IfOk result (λ s. length s.items ≡ parked.now.journal.cell.servers) }
    ensures led { IfOk result (λ s. AreLed parked.now.journal (map (λ x. x.now) s.items)) }
{
    let mut servers = Vec::new(alloc);
    for before in 0..parked.server_count() {
        let server = parked.server_behind(before);
        servers.push(&server.server)?;
    }
    Ok(servers)
}

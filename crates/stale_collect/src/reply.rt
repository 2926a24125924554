//! The answer to a report.

ghost use Rattle.std.specs.Prelude.{◌≡◌, IfOk};
ghost use Rattle.chunk_table.specs.ChunkTable.{chunk_of};
ghost use Rattle.stale_collect.specs.Drops.{is_useless, useless_drops};

use crate::drop_order::DropOrder;
use chunk_table::table::Table;
use gfs_types::no_memory::NoMemory;
use messages::message::ReplicaLine;
use std::alloc::Global;

/// A Drop for each reported replica that is unknown or older than the granted version, in the order of the report. At NoMemory
/// nothing has changed.
pub fn reply(
    alloc: Global,
    report: &[ReplicaLine],
    table: &Table,
) -> Result<Vec<DropOrder>, NoMemory>
    ensures { IfOk result (λ drops. drops.items ≡ useless_drops table.now.table report.now) }
{
    let mut drops = Vec::new(alloc);
    for line in report {
        if is_useless(*line, table) {
            drops.push(DropOrder {
                handle: line.handle,
                version: line.version,
            })?;
        }
    }
    Ok(drops)
}

fn is_useless(line: ReplicaLine, table: &Table) -> bool
    ensures { result ≡ is_useless line.version.0 (chunk_of table.now.table line.handle.0) }
{
    match table.chunk(line.handle) {
        None => true,
        Some(chunk) => line.version < chunk.granted(),
    }
}

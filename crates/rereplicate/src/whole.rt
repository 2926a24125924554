//! Which chunks may lack replicas.

ghost use Rattle.std.specs.Prelude.{◌≡◌, IfOk};
ghost use Rattle.rereplicate.specs.Whole.{lacks, lacks_at, AreWholeBut};

use crate::holders::Holders;
use crate::servers::count_current;
use chunk_table::chunk::Chunk;
use chunk_table::table::Table;
use gfs_types::ids::{Handle, Version};
use ordered_map::OrderedMap;
use std::alloc::{AllocError, Global};

/// Handles of chunks that may lack replicas.
pub type Doubted = OrderedMap<()>;

/// The granted chunks that have fewer present current holders than their goal. Goes over all handles that were given out.
pub fn lacking<H: Holders>(alloc: Global, table: &Table, holders: &H) -> Result<Doubted, AllocError>
    ensures { IfOk result (AreWholeBut (H.servers holders.now) table.now.table.chunks) }
{
    table.is_sound();
    let mut found = OrderedMap::new(alloc);
    for number in 0..table.next_handle().0 {
        if lacks_at(table, holders, Handle(number)) {
            found.insert(number, ())?;
        }
    }
    Ok(found)
}

/// Those of the doubted chunks that do lack replicas. Goes over these alone.
pub fn still_lacking<H: Holders>(
    alloc: Global,
    table: &Table,
    holders: &H,
    doubted: &Doubted,
) -> Result<Doubted, AllocError>
    requires whole { AreWholeBut (H.servers holders.now) table.now.table.chunks doubted.now }
    ensures { IfOk result (AreWholeBut (H.servers holders.now) table.now.table.chunks) }
{
    let mut found = OrderedMap::new(alloc);
    for (number, _) in doubted.iter() {
        if lacks_at(table, holders, Handle(*number)) {
            found.insert(*number, ())?;
        }
    }
    Ok(found)
}

fn lacks_at<H: Holders>(table: &Table, holders: &H, handle: Handle) -> bool
    ensures { result ≡ lacks_at (H.servers holders.now) table.now.table.chunks handle.0 }
{
    match table.chunk(handle) {
        Some(chunk) => lacks(chunk, holders, handle),
        None => false,
    }
}

fn lacks<H: Holders>(chunk: &Chunk, holders: &H, handle: Handle) -> bool
    ensures { result ≡ lacks (H.servers holders.now) handle.0 chunk.now }
{
    chunk.granted() > Version(0)
        && count_current(holders, chunk, handle) < u64::from(chunk.shape().goal)
}

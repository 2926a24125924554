//! What the master keeps of a chunk, as it stood when it was looked up.

ghost use Rattle.std.specs.Prelude.{◌≡◌, suc, IfOk};
ghost use Rattle.chunk_table.specs.ChunkTable.{chunk_of};
ghost use Rattle.protocol.specs.Master.{has_lease};
ghost use Rattle.protocol.specs.MasterVersions.{group_of};
ghost use Rattle.master_plan.specs.Plans.{known};

use chunk_table::chunk::Chunk;
use gfs_types::ids::{Handle, MAX_COUNTER, Moment, ServerId, Version};
use gfs_types::lists::ServerList;
use gfs_types::no_memory::NoMemory;
use gfs_types::shape::Shape;
use master_plan::plan::Plan;
use master_waiting::fault::PlanFault;
use messages::message::Group;
use std::alloc::{Allocator, Global};
use std::marker::Model;

/// What the master keeps of a chunk, as it stood when it was looked up.
#[derive(Drop)]
pub struct ChunkState {
    shape: Shape,
    granted: u64,
    issued: u64,
    references: u64,
    primary: u16,
    members: ServerList,
    lease_end: u64,
}

impl Model for ChunkState {
    ghost use Rattle.chunk_table.specs.ChunkTable.{ChunkRow};

    ghost Value = { ChunkRow };

    ghost view = { λ r. record { shape = r.shape; granted = r.granted; issued = r.issued; references = r.references; primary = r.primary; members = r.members; lease_end = r.lease_end } };
}

/// What is kept of a chunk.
pub fn chunk_of<A: Allocator + Clone>(
    plan: &Plan<A>,
    handle: Handle,
) -> Result<Option<ChunkState>, PlanFault>
    ensures { IfOk result (λ row. row ≡ chunk_of plan.now.logged.table handle.0) }
{
    match plan.state().table().chunk(handle) {
        Some(chunk) => Ok(Some(row_of(chunk, plan.alloc())?)),
        None => Ok(None),
    }
}

fn row_of(chunk: &Chunk, alloc: Global) -> Result<ChunkState, NoMemory>
    ensures { IfOk result (λ row. row ≡ chunk.now) }
{
    Ok(ChunkState {
        shape: chunk.shape(),
        granted: chunk.granted().0,
        issued: chunk.issued().0,
        references: chunk.references(),
        primary: chunk.primary().0,
        members: chunk.members().copy(alloc)?,
        lease_end: chunk.lease_end().0,
    })
}

impl ChunkState {
    /// The shape of its file.
    pub fn shape(&self) -> Shape
        ensures { result ≡ self.now.shape }
    {
        self.shape
    }

    /// How many replicas its file is to have of each chunk.
    pub fn goal(&self) -> u8
        ensures { result ≡ self.now.shape.goal }
    {
        self.shape.goal
    }

    /// The version of the last lease, 0 where there was none.
    pub fn granted(&self) -> Version
        ensures { result.0 ≡ self.now.granted }
    {
        Version(self.granted)
    }

    /// The last version number that was issued.
    pub fn issued(&self) -> Version
        ensures { result.0 ≡ self.now.issued }
    {
        Version(self.issued)
    }

    /// How many files own the chunk.
    pub fn references(&self) -> u64
        ensures { result ≡ self.now.references }
    {
        self.references
    }

    /// The moment at which the last lease ends.
    pub fn lease_end(&self) -> Moment
        ensures { result.0 ≡ self.now.lease_end }
    {
        Moment(self.lease_end)
    }

    /// The version number that is issued next. Limit: no number is left.
    pub fn next_version(&self) -> Result<Version, PlanFault>
        ensures { IfOk result (λ version. version.0 ≡ suc self.now.issued) }
    {
        if self.issued >= MAX_COUNTER {
            return Err(PlanFault::Limit);
        }
        Ok(Version(self.issued + 1))
    }
}

/// The primary with its members, where there is one.
pub fn group_of<A: Allocator + Clone>(
    plan: &Plan<A>,
    row: &ChunkState,
) -> Result<Option<Group>, PlanFault>
    ensures { IfOk result (λ group. group ≡ group_of (known plan.now) row.now) }
{
    if !has_lease(plan, row) {
        return Ok(None);
    }
    Ok(Some(Group {
        primary: ServerId(row.primary),
        members: row.members.copy(plan.alloc())?,
    }))
}

fn has_lease<A: Allocator + Clone>(plan: &Plan<A>, row: &ChunkState) -> bool
    ensures { result ≡ has_lease (known plan.now) row.now }
{
    row.granted > 0 && !(row.lease_end <= plan.now().0)
}

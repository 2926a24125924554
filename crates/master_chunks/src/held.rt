//! Which servers hold a version of a chunk.

ghost use Rattle.std.specs.Prelude.{◌≡◌, [], ◌++◌, map, IfOk, OnOk};
ghost use Rattle.std.specs.List.{cons_option};
ghost use Rattle.protocol.specs.Master.{held_where, version_held, holders_where, current_holders, present_current_holders};
ghost use Rattle.protocol.specs.MasterVersions.{holder_line};
ghost use Rattle.master_plan.specs.Plans.{known};
ghost use Rattle.master_chunks.specs.Tests.{passes};

use crate::row::ChunkState;
use gfs_types::ids::{Handle, ServerId, Version};
use gfs_types::lists::Sequence;
use master_plan::plan::Plan;
use master_waiting::fault::PlanFault;
use messages::message::Holder;
use messages::message_lists::HolderList;
use std::alloc::{Allocator, Global};
use std::marker::Model;

/// A server with the version of its replica of a chunk.
#[derive(Drop)]
pub struct HeldAt {
    pub(crate) server: u16,
    pub(crate) version: u64,
}

impl Model for HeldAt {
    ghost use Rattle.protocol.specs.Master.{HeldAt};

    ghost Value = { HeldAt };

    ghost view = { λ h. record { server = h.server; version = h.version } };
}

/// Servers with their versions, in rising number.
pub type HeldList = Sequence<HeldAt>;

/// Which versions are asked for.
#[derive(Clone, Copy)]
pub enum VersionTest {
    /// This one and those after it.
    AtLeast(Version),
    /// This one alone.
    Exactly(Version),
}

fn passes(test: VersionTest, version: Version) -> bool
    ensures { result ≡ passes test version.0 }
{
    match test {
        VersionTest::AtLeast(least) => least <= version,
        VersionTest::Exactly(only) => version == only,
    }
}

#[tactic(auto, using(crate::proofs::Servers::found_more))]
/// The servers that hold such a version, in rising number.
pub fn holders_where<A: Allocator + Clone>(
    plan: &Plan<A>,
    handle: Handle,
    test: VersionTest,
) -> Result<HeldList, PlanFault>
    ensures { IfOk result (λ holders. holders ≡ holders_where (known plan.now) handle.0 (passes test)) }
{
    let mut holders = HeldList::empty(plan.alloc());
    for index in 0..plan.server_count() {
        push_some(
            &mut holders,
            held_where(plan, handle, test, ServerId(index + 1)),
        )?;
    }
    Ok(holders)
}

fn held_where<A: Allocator + Clone>(
    plan: &Plan<A>,
    handle: Handle,
    test: VersionTest,
    server: ServerId,
) -> Option<HeldAt>
    ensures { result ≡ held_where (passes test) server.0 (version_held (known plan.now) handle.0 server.0) }
{
    let Some(version) = plan.version_held(handle, server) else {
        return None;
    };
    if passes(test, version) {
        Some(HeldAt {
            server: server.0,
            version: version.0,
        })
    } else {
        None
    }
}

fn push_some(holders: &mut HeldList, more: Option<HeldAt>) -> Result<(), PlanFault>
    ensures { OnOk result (holders.new ≡ holders.old ++ cons_option more []) }
{
    if let Some(holder) = more {
        holders.push(holder)?;
    }
    Ok(())
}

/// A holder is current where its version is at least the granted one.
pub fn current_holders<A: Allocator + Clone>(
    plan: &Plan<A>,
    handle: Handle,
    row: &ChunkState,
) -> Result<HeldList, PlanFault>
    ensures { IfOk result (λ holders. holders ≡ current_holders (known plan.now) handle.0 row.now) }
{
    holders_where(plan, handle, VersionTest::AtLeast(row.granted()))
}

/// Those of them that are present.
pub fn present_current_holders<A: Allocator + Clone>(
    plan: &Plan<A>,
    handle: Handle,
    row: &ChunkState,
) -> Result<HeldList, PlanFault>
    ensures { IfOk result (λ holders. holders ≡ present_current_holders (known plan.now) handle.0 row.now) }
{
    let current = current_holders(plan, handle, row)?;
    let mut present = HeldList::empty(plan.alloc());
    for holder in current.as_slice() {
        if plan.is_present(ServerId(holder.server)) {
            present.push(HeldAt {
                server: holder.server,
                version: holder.version,
            })?;
        }
    }
    Ok(present)
}

/// Each as a message has it.
pub fn holder_lines(holders: &[HeldAt], alloc: Global) -> Result<HolderList, PlanFault>
    ensures { IfOk result (λ lines. lines ≡ map holder_line holders.now) }
{
    let mut lines = HolderList::empty(alloc);
    for holder in holders {
        lines.push(Holder {
            server: ServerId(holder.server),
            version: Version(holder.version),
        })?;
    }
    Ok(lines)
}

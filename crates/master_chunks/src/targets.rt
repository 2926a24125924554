//! The servers that are to get a version number.

ghost use Rattle.std.specs.Prelude.{◌≡◌, ℕ, map, option_map, IfOk};
ghost use Rattle.protocol.specs.Master.{version_held};
ghost use Rattle.protocol.specs.MasterVersions.{VersionTarget, holder_target, target_servers, placed_targets, new_attempt};
ghost use Rattle.master_plan.specs.Plans.{known};

use crate::held::HeldAt;
use crate::placing::placement;
use crate::row::ChunkState;
use gfs_types::ids::{Handle, ServerId, Version};
use gfs_types::lists::{Sequence, ServerList};
use gfs_types::no_memory::NoMemory;
use master_plan::plan::Plan;
use master_waiting::fault::PlanFault;
use master_waiting::waiting::VersionAttempt;
use std::alloc::{Allocator, Global};
use std::marker::Model;

/// A server that is to get a version number, with the version that it must replace; without one it makes a new replica.
#[derive(Drop)]
pub struct VersionTarget {
    server: u16,
    base: Option<u64>,
}

impl Model for VersionTarget {
    ghost use Rattle.protocol.specs.MasterVersions.{VersionTarget};

    ghost Value = { VersionTarget };

    ghost view = { λ t. record { server = t.server; base = t.base } };
}

/// The servers that are to get one number.
pub type TargetList = Sequence<VersionTarget>;

impl VersionTarget {
    pub fn new(server: ServerId, base: Option<u64>) -> VersionTarget
        ensures { result ≡ record { server = server.0; base = base } }
    {
        VersionTarget {
            server: server.0,
            base,
        }
    }

    pub fn server(&self) -> ServerId
        ensures { result.0 ≡ self.now.server }
    {
        ServerId(self.server)
    }

    /// The version that it must replace.
    pub fn base(&self) -> Option<u64>
        ensures { result ≡ self.now.base }
    {
        self.base
    }
}

/// Holders, each with the version that it has.
pub fn holder_targets(holders: &[HeldAt], alloc: Global) -> Result<TargetList, PlanFault>
    ensures { IfOk result (λ targets. targets ≡ map holder_target holders.now) }
{
    let mut targets = TargetList::empty(alloc);
    for holder in holders {
        targets.push(VersionTarget {
            server: holder.server,
            base: Some(holder.version),
        })?;
    }
    Ok(targets)
}

/// A chunk that was never granted is placed anew.
pub fn placed_targets<A: Allocator + Clone>(
    plan: &Plan<A>,
    handle: Handle,
    row: &ChunkState,
) -> Result<TargetList, PlanFault>
    ensures { IfOk result (λ targets. targets ≡ placed_targets (known plan.now) handle.0 row.now) }
{
    let servers = placement(plan, row)?;
    let mut targets = TargetList::empty(plan.alloc());
    for server in &servers {
        let base = base_at(plan, handle, ServerId(*server));
        targets.push(VersionTarget {
            server: *server,
            base,
        })?;
    }
    Ok(targets)
}

fn base_at<A: Allocator + Clone>(plan: &Plan<A>, handle: Handle, server: ServerId) -> Option<u64>
    ensures { result ≡ version_held (known plan.now) handle.0 server.0 }
{
    match plan.version_held(handle, server) {
        Some(version) => Some(version.0),
        None => None,
    }
}

fn target_servers(targets: &[VersionTarget], alloc: Global) -> Result<ServerList, NoMemory>
    ensures { IfOk result (λ servers. servers ≡ target_servers targets.now) }
{
    let mut servers = ServerList::empty(alloc);
    for target in targets {
        servers.push(target.server)?;
    }
    Ok(servers)
}

/// The attempt at a number that is sent to these now.
pub fn new_attempt<A: Allocator + Clone>(
    plan: &Plan<A>,
    version: Version,
    targets: &[VersionTarget],
) -> Result<VersionAttempt, PlanFault>
    ensures { IfOk result (λ attempt. attempt ≡ new_attempt (known plan.now) version.0 targets.now) }
{
    let alloc = plan.alloc();
    Ok(VersionAttempt::new(
        version,
        target_servers(targets, alloc)?,
        ServerList::empty(alloc),
        plan.now(),
    ))
}

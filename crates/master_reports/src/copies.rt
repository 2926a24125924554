//! Copies of shared chunks that nobody recorded in time (section 3.4).

ghost use Rattle.std.specs.Prelude.{◌≡◌, ◌==◌, is_some, filter, IfOk, OnOk};
ghost use Rattle.chunk_table.specs.ChunkTable.{chunk_of};
ghost use Rattle.protocol.specs.Logged.{LogDisk};
ghost use Rattle.protocol.specs.Master.{held_where, version_held};
ghost use Rattle.protocol.specs.MasterVersions.{is_attempted};
ghost use Rattle.protocol.specs.MasterStep.{gives_up_lost_copies, lost_copies, is_lost_copy, is_recorded};
ghost use Rattle.master_plan.specs.Plans.{doing, known};
ghost use Rattle.master_reports.specs.Late.{is_held};

use gfs_types::ids::{Handle, ServerId, Version};
use gfs_types::no_memory::NoMemory;
use master_plan::plan::Plan;
use master_waiting::fault::PlanFault;
use std::alloc::Allocator;

/// A copy that nobody recorded in time is given up.
pub fn gives_up_lost_copies<A: Allocator + Clone>(plan: &mut Plan<A>) -> Result<(), PlanFault>
    ensures { OnOk result ((disk : LogDisk) → gives_up_lost_copies (doing disk plan.old) ≡ doing disk plan.new) }
{
    let handles = lost_copies(plan)?;
    if handles.is_empty() {
        return Ok(());
    }
    plan.give_up_copies(&handles)
}

fn lost_copies<A: Allocator + Clone>(plan: &Plan<A>) -> Result<Vec<u64>, PlanFault>
    ensures { IfOk result (λ v. v.items ≡ lost_copies (known plan.now)) }
{
    let handles = plan.state().copied_handles()?;
    let lost = lost_of(plan, &handles)?;
    Ok(lost)
}

// Those of the copies that nobody recorded in time.
fn lost_of<A: Allocator + Clone>(plan: &Plan<A>, handles: &[u64]) -> Result<Vec<u64>, NoMemory>
    ensures { IfOk result (λ v. v.items ≡ filter (is_lost_copy (known plan.now)) handles.now) }
{
    let mut lost = Vec::new(plan.alloc());
    for handle in handles {
        if is_lost_copy(plan, Handle(*handle)) {
            lost.push(*handle)?;
        }
    }
    Ok(lost)
}

fn is_lost_copy<A: Allocator + Clone>(plan: &Plan<A>, handle: Handle) -> bool
    ensures { result ≡ is_lost_copy (known plan.now) handle.0 }
{
    !is_attempted(plan, handle) && !is_recorded(plan, handle)
}

fn is_attempted<A: Allocator + Clone>(plan: &Plan<A>, handle: Handle) -> bool
    ensures { result ≡ is_attempted (known plan.now) handle.0 }
{
    match plan.attempt(handle) {
        Some(_) => true,
        None => false,
    }
}

// Whether some server recorded the last number that was issued.
fn is_recorded<A: Allocator + Clone>(plan: &Plan<A>, handle: Handle) -> bool
    ensures { result ≡ is_recorded (known plan.now) handle.0 (chunk_of plan.now.logged.table handle.0) }
{
    match plan.state().table().chunk(handle) {
        Some(chunk) => is_held(plan, handle, chunk.issued()),
        None => false,
    }
}

// Whether some server holds exactly this version.
fn is_held<A: Allocator + Clone>(plan: &Plan<A>, handle: Handle, version: Version) -> bool
    ensures { result ≡ is_held (known plan.now) handle.0 version.0 }
{
    let mut found = false;
    for index in 0..plan.server_count() {
        if holds(plan, ServerId(index + 1), handle, version) {
            found = true;
        }
    }
    found
}

fn holds<A: Allocator + Clone>(
    plan: &Plan<A>,
    server: ServerId,
    handle: Handle,
    version: Version,
) -> bool
    ensures { result ≡ is_some (held_where (λ v. v == version.0) server.0 (version_held (known plan.now) handle.0 server.0)) }
{
    match plan.version_held(handle, server) {
        Some(held) => held == version,
        None => false,
    }
}

//! The next clone (section 4.3).

ghost use Rattle.std.specs.Prelude.{◌≡◌, option_map, IfOk, OnOk};
ghost use Rattle.protocol.specs.Logged.{LogDisk};
ghost use Rattle.protocol.specs.MasterClones.{clones_next};
ghost use Rattle.rereplicate.specs.Clones.{next_clone};
ghost use Rattle.master_plan.specs.Plans.{doing, known};
ghost use Rattle.master_plan.specs.Watched.{IsWhole, servers_in};
ghost use Rattle.master_reports.specs.Cloned.{orders_this};

use gfs_types::ids::{Handle, Node, ServerId, Version};
use master_plan::plan::Plan;
use master_waiting::fault::PlanFault;
use messages::message::Body;
use rereplicate::clone_order::CloneOrder;
use rereplicate::holders::Holders;
use rereplicate::next::{next, next_of};
use rereplicate::whole::{Doubted, lacking, still_lacking};
use std::alloc::{AllocError, Allocator};

/// One clone is ordered, if any. Goes over all chunks only where it isn't known which of them may lack replicas, and else over these.
pub fn clones_next<A: Allocator + Clone>(plan: &mut Plan<A>) -> Result<(), PlanFault>
    ensures { OnOk result ((disk : LogDisk) → clones_next (doing disk plan.old) ≡ doing disk plan.new) }
{
    looks(plan);
    let clone = next_clone(plan);
    orders_clone(plan, clone)
}

// Which chunks lack replicas is put down, where there is memory for it.
fn looks<A: Allocator + Clone>(plan: &mut Plan<A>)
    ensures { plan.new ≡ plan.old }
{
    if let Ok(found) = found_lacking(plan) {
        plan.note_doubted(found);
    }
}

// The chunks that lack replicas. No other does.
fn found_lacking<A: Allocator + Clone>(plan: &Plan<A>) -> Result<Doubted, AllocError>
    ensures { IfOk result (IsWhole (known plan.now)) }
{
    let known = PlanHolders { plan };
    let table = plan.state().table();
    match plan.doubted() {
        Some(doubted) => still_lacking(plan.alloc(), table, &known, doubted),
        None => lacking(plan.alloc(), table, &known),
    }
}

fn next_clone<A: Allocator + Clone>(plan: &Plan<A>) -> Option<CloneOrder>
    ensures { result ≡ next_clone (servers_in (known plan.now)) plan.now.now plan.now.logged.table.chunks }
{
    let known = PlanHolders { plan };
    let table = plan.state().table();
    match plan.doubted() {
        Some(doubted) => next_of(table, &known, plan.now(), doubted),
        None => next(table, &known, plan.now()),
    }
}

fn orders_clone<A: Allocator + Clone>(
    plan: &mut Plan<A>,
    clone: Option<CloneOrder>,
) -> Result<(), PlanFault>
    ensures { OnOk result ((disk : LogDisk) → orders_this (doing disk plan.old) clone ≡ doing disk plan.new) }
{
    let Some(clone) = clone else {
        return Ok(());
    };
    let order = plan.next_order()?;
    plan.tell(
        Node::Server(clone.target),
        Body::Clone {
            order,
            handle: clone.handle,
            version: clone.version,
            source: clone.source,
        },
    )
}

// What the choice of a clone asks of the master.
#[derive(Drop)]
struct PlanHolders<'a, A: Allocator> {
    plan: &'a Plan<A>,
}

impl<'a, A: Allocator + Clone> Holders for PlanHolders<'a, A> {
    ghost servers = { λ k. servers_in (known k.plan.now) };

    fn server_count(&self) -> u16 {
        self.plan.server_count()
    }

    fn is_present(&self, server: ServerId) -> bool {
        self.plan.is_present(server)
    }

    fn version(&self, handle: Handle, server: ServerId) -> Option<Version> {
        self.plan.version_held(handle, server)
    }

    fn chunks(&self, server: ServerId) -> u64 {
        self.plan.chunks_held(server)
    }

    fn is_under_way(&self, handle: Handle, version: Version) -> bool {
        self.plan.is_under_way(handle, version)
    }
}

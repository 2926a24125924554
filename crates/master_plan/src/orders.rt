//! Orders to servers (section 4.5).

ghost use Rattle.std.specs.Prelude.{◌≡◌, suc, IfOk, OnOk};
ghost use Rattle.protocol.specs.Sending.{handle_of, version_of};
ghost use Rattle.protocol.specs.MasterSnapshots.{revokes};
ghost use Rattle.master_plan.specs.Plans.{next_order, doing};

use crate::plan::Plan;
use gfs_types::ids::{Handle, MAX_COUNTER, Node, OrderNo};
use master_waiting::fault::PlanFault;
use messages::message::Body;
use std::alloc::Allocator;

impl<A: Allocator + Clone> Plan<A> {
    /// The number of the order that is sent next. Limit: no number is left.
    pub fn next_order(&mut self) -> Result<OrderNo, PlanFault>
        ensures number { IfOk result (λ o. o ≡ next_order self.old) }
        ensures ok { OnOk result (self.new ≡ record self.old { order_count = suc self.old.order_count }) }
    {
        if self.order_count >= MAX_COUNTER {
            return Err(PlanFault::Limit);
        }
        self.order_count += 1;
        Ok(OrderNo {
            epoch: self.state.epoch(),
            count: self.order_count,
        })
    }
}

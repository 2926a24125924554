//! The beginning of the master, and of each of its steps.

ghost use Rattle.std.specs.Prelude.{◌≡◌, ◌==◌, ◌&&◌, ◌≤◌, [], nat_lt, filter, OnOk, IfOk};
ghost use Rattle.std.specs.FinMap as map;
ghost use Rattle.protocol.specs.Tables.{moment_limit, first_numbers};
ghost use Rattle.protocol.specs.MasterStep.{first_reports};
ghost use Rattle.protocol.specs.MasterSnapshots.{live_snapshots};
ghost use Rattle.master_plan.specs.Changes.{changes_of};
ghost use Rattle.master_plan.specs.Plans.{begun, started};

use crate::change::PlannedChangeList;
use crate::plan::Plan;
use gfs_types::config::Config;
use gfs_types::ids::Moment;
use gfs_types::lists::Sequence;
use gfs_types::no_memory::NoMemory;
use master_state::state::State;
use master_waiting::fault::PlanFault;
use master_waiting::waiting_list::WaitingSnapshots;
use messages::message_lists::MessageList;
use ordered_map::OrderedMap;
use ordered_map::number_map::NumberMap;
use protocol::seen::SeenList;
use std::alloc::{Allocator, Global};
use std::mem;

impl<A: Allocator + Clone> Plan<A> {
    /// What a master knows that has read its log: of the servers nothing but that each is taken to have reported now.
    pub fn new(
        alloc: Global,
        config: Config,
        server_count: u16,
        state: State<A>,
        now: Moment,
    ) -> Result<Self, PlanFault>
        requires moment { now.0 ≤ moment_limit }
        requires lease { config.lease_ms ≤ 3600000 }
        ensures { IfOk result (λ p. p ≡ started config server_count state now.0) }
    {
        Ok(Plan {
            alloc,
            config,
            server_count,
            clock: now.0,
            state,
            order_count: 0,
            attempts: OrderedMap::new(alloc),
            snapshots: WaitingSnapshots::new(alloc),
            holders: NumberMap::new(alloc),
            reported: first_reports(alloc, server_count, now)?,
            whole_until: None,
            all_wait_until: None,
            knows_concerned: false,
            concerned_files: OrderedMap::new(alloc),
            concerned_chunks: OrderedMap::new(alloc),
            doubted: OrderedMap::new(alloc),
            sent: Sequence::empty(alloc),
            changes: Sequence::empty(alloc),
            seen: Sequence::empty(alloc),
        })
    }

    /// A step begins at this moment: snapshots whose deadline has come are given up. Takes no memory.
    pub fn begin(&mut self, now: Moment)
        requires { now.0 ≤ moment_limit }
        ensures { self.new ≡ begun self.old now.0 }
    {
        self.clock = self.clock.max(now.0);
        self.keep_live_snapshots();
        self.sent = Sequence::empty(self.alloc);
        self.changes = Sequence::empty(self.alloc);
        self.seen = Sequence::empty(self.alloc);
    }

    // Snapshots whose deadline has come are given up.
    fn keep_live_snapshots(&mut self)
        ensures { self.new ≡ record self.old { snapshots = live_snapshots self.old.now self.old.snapshots } }
    {
        let count = self.snapshots.as_slice().len();
        self.snapshots.keep_live(self.clock);
        let left = self.snapshots.as_slice().len();
        self.knows_concerned = are_still_known(self.knows_concerned, count, left);
    }

    /// Takes out the messages of the step.
    pub fn take_sent(&mut self) -> MessageList
        ensures sent { result ≡ self.old.sent }
        ensures rest { self.new ≡ record self.old { sent = [] } }
    {
        mem::replace(&mut self.sent, Sequence::empty(self.alloc))
    }

    /// Takes out the changes of the log that the step makes.
    pub fn take_changes(&mut self) -> PlannedChangeList
        ensures changes { changes_of result ≡ self.old.changes }
        ensures rest { self.new ≡ record self.old { changes = [] } }
    {
        mem::replace(&mut self.changes, Sequence::empty(self.alloc))
    }

    /// Takes out what is seen of the step.
    pub fn take_seen(&mut self) -> SeenList
        ensures seen { result ≡ self.old.seen }
        ensures rest { self.new ≡ record self.old { seen = [] } }
    {
        mem::replace(&mut self.seen, Sequence::empty(self.alloc))
    }
}

// Whether what was known of the snapshots is known of those that are left.
fn are_still_known(known: bool, count: usize, left: usize) -> bool
    ensures { result ≡ (known && (left == count)) }
{
    known && left == count
}

#[tactic(auto, using(crate::proofs::FirstReports::one_more))]
fn first_reports(alloc: Global, server_count: u16, now: Moment) -> Result<NumberMap<u64>, NoMemory>
    ensures { IfOk result (λ t. t ≡ first_reports server_count now.0) }
{
    let mut reported = NumberMap::new(alloc);
    for index in 0..server_count {
        reported.insert(u64::from(index) + 1, now.0)?;
    }
    Ok(reported)
}

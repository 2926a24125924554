//! Copies that are given up, and the ends of leases.

ghost use Rattle.std.specs.Prelude.{◌≡◌, ◌||◌, true, Some, nat_lt, length, OnOk, IfSome};
ghost use Rattle.std.specs.FinMap as map;
ghost use Rattle.protocol.specs.Tables.{removed_all};
ghost use Rattle.protocol.specs.Logged.{copies_given_up};
ghost use Rattle.protocol.specs.MasterSnapshots.{row_has_ended};
ghost use Rattle.chunk_table.specs.ChunkTable.{chunk_of, set_end};
ghost use Rattle.master_plan.specs.Plans.{without_copies, without_attempts, with_end, with_lease_extended};

use crate::plan::Plan;
use gfs_types::ids::{Handle, Moment};
use master_state::state::State;
use master_waiting::fault::PlanFault;
use master_waiting::still_waiting::has_ended_at;
use master_waiting::waiting::VersionAttempt;
use ordered_map::OrderedMap;
use std::alloc::Allocator;

impl<A: Allocator + Clone> Plan<A> {
    /// These copies are given up, with their version numbers that are under way.
    pub fn give_up_copies(&mut self, handles: &[u64]) -> Result<(), PlanFault>
        ensures { OnOk result (self.new ≡ without_copies self.old handles.now) }
    {
        let until = self.whole_until;
        self.whole_until = None;
        let known = self.knows_concerned;
        self.knows_concerned = false;
        let waiting = waits_without(self.all_wait_until, handles);
        self.all_wait_until = None;
        self.state.give_up_copies(handles)?;
        self.all_wait_until = waiting;
        self.knows_concerned = known;
        self.whole_until = until;
        self.remove_attempts(handles);
        Ok(())
    }

    /// The version numbers of these chunks that are under way are given up. Takes no memory.
    pub fn remove_attempts(&mut self, handles: &[u64])
        ensures { self.new ≡ without_attempts self.old handles.now }
    {
        remove_all(&mut self.attempts, handles);
    }

    /// The end of a chunk's lease that has not ended moves to a lease's time from now, where that is later; else nothing changes. Takes
    /// no memory.
    pub fn extend_lease(&mut self, handle: Handle)
        ensures { self.new ≡ with_lease_extended self.old handle.0 }
    {
        let now = Moment(self.clock);
        self.state.extend_lease(handle, now, self.config.lease_ms);
    }

    /// The moment at which a chunk's lease ends; 0 ends it. Takes no memory.
    pub fn end_lease_at(&mut self, handle: Handle, moment: Moment)
        ensures { self.new ≡ with_end self.old handle.0 moment.0 }
    {
        let waiting = waits_beside(&self.state, self.all_wait_until, handle, moment);
        self.all_wait_until = None;
        self.state.set_lease_end(handle, moment);
        self.all_wait_until = waiting;
    }
}

// The moment up to which all wait, where no row goes.
fn waits_without(until: Option<u64>, handles: &[u64]) -> Option<u64>
    ensures { IfSome result (λ moment. (until ≡ Some moment) × (length handles.now ≡ 0)) }
{
    if handles.is_empty() { until } else { None }
}

// The same, where a chunk's lease that has not ended then doesn't end earlier either.
fn waits_beside<A: Allocator + Clone>(
    state: &State<A>,
    until: Option<u64>,
    handle: Handle,
    end: Moment,
) -> Option<u64>
    ensures kept { IfSome result (λ moment. until ≡ Some moment) }
    ensures lease { IfSome result (λ moment. (nat_lt moment end.0 || row_has_ended moment (chunk_of state.now.table handle.0)) ≡ true) }
{
    let moment = until?;
    if moment < end.0 || has_ended_at(state, handle, moment) {
        return Some(moment);
    }
    None
}

fn remove_all(attempts: &mut OrderedMap<VersionAttempt>, handles: &[u64])
    ensures { attempts.new ≡ removed_all attempts.old handles.now }
{
    for handle in handles {
        attempts.remove(*handle);
    }
}

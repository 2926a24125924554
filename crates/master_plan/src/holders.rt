//! What the master knows of the servers' replicas (section 2.6.2).

ghost use Rattle.std.specs.Prelude.{◌≡◌, OnOk, option_map};
ghost use Rattle.std.specs.FinMap as map;
ghost use Rattle.protocol.specs.Master.{is_present, version_held, chunks_held, held_by};
ghost use Rattle.protocol.specs.MasterClones.{is_attempt_at};
ghost use Rattle.master_plan.specs.Plans.{known};

use crate::plan::Plan;
use gfs_types::ids::{Handle, ServerId, Version};
use master_waiting::fault::PlanFault;
use ordered_map::OrderedMap;
use std::alloc::Allocator;
use std::mem;

impl<A: Allocator + Clone> Plan<A> {
    /// Whether a server's last report is younger than a lease.
    pub fn is_present(&self, server: ServerId) -> bool
        ensures { result ≡ is_present (known self.now) server.0 }
    {
        let last = match self.reported.get(u64::from(server.0)) {
            Some(moment) => *moment,
            None => 0,
        };
        self.clock.saturating_sub(last) < self.config.lease_ms
    }

    #[tactic(auto, using(crate::proofs::Empty::none_held))]
    /// The version of a server's replica, as far as it told.
    pub fn version_held(&self, handle: Handle, server: ServerId) -> Option<Version>
        ensures { option_map (λ v. v.0) result ≡ version_held (known self.now) handle.0 server.0 }
    {
        match self.holders.get(u64::from(server.0)) {
            Some(held) => version_in(held, handle),
            None => None,
        }
    }

    #[tactic(auto, using(crate::proofs::Empty::no_chunks))]
    /// How many chunks a server holds.
    pub fn chunks_held(&self, server: ServerId) -> u64
        ensures { result ≡ chunks_held (known self.now) server.0 }
    {
        match self.holders.get(u64::from(server.0)) {
            Some(held) => held.len() as u64,
            None => 0,
        }
    }

    /// Whether the attempt at this version of a chunk is under way.
    pub fn is_under_way(&self, handle: Handle, version: Version) -> bool
        ensures { result ≡ is_attempt_at version.0 (map.get self.now.attempts handle.0) }
    {
        match self.attempts.get(handle.0) {
            Some(attempt) => attempt.version() == version,
            None => false,
        }
    }
}

fn version_in(held: &OrderedMap<u64>, handle: Handle) -> Option<Version>
    ensures { option_map (λ v. v.0) result ≡ map.get held.now handle.0 }
{
    match held.get(handle.0) {
        Some(version) => Some(Version(*version)),
        None => None,
    }
}

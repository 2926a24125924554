//! How the master puts down what servers tell it (sections 2.6.2 and 4.5).

ghost use Rattle.std.specs.Prelude.{◌≡◌, ◌==◌, ◌&&◌, true, Some, nat_lt, unwrap_or, OnOk, IfOk};
ghost use Rattle.std.specs.FinMap as map;
ghost use Rattle.master_plan.specs.Reports.{with_holder, with_report, table_of_lines};

use crate::plan::Plan;
use gfs_types::ids::{Handle, ServerId, Version};
use master_waiting::fault::PlanFault;
use master_waiting::waiting::VersionAttempt;
use messages::message::ReplicaLine;
use ordered_map::OrderedMap;
use ordered_map::number_map::NumberMap;
use rereplicate::doubts::{doubt, doubt_changed};
use std::alloc::{AllocError, Allocator, Global};

impl<A: Allocator + Clone> Plan<A> {
    /// A server holds this version of a chunk.
    pub fn note_holder(
        &mut self,
        server: ServerId,
        handle: Handle,
        version: Version,
    ) -> Result<(), PlanFault>
        ensures { OnOk result (self.new ≡ with_holder self.old server.0 handle.0 version.0) }
    {
        let server = u64::from(server.0);
        let until = doubt(self.whole_until, &mut self.doubted, handle.0);
        self.whole_until = None;
        note_version(self.alloc, &mut self.holders, server, handle.0, version.0)?;
        self.whole_until = until;
        Ok(())
    }

    /// A server reported these replicas: it is present, and holds them and nothing else.
    pub fn note_report(
        &mut self,
        server: ServerId,
        replicas: &[ReplicaLine],
    ) -> Result<(), PlanFault>
        ensures { OnOk result (self.new ≡ with_report self.old server.0 replicas.now) }
    {
        let server = u64::from(server.0);
        self.note_replicas(server, replicas)?;
        if self.reported_after(server) {
            self.whole_until = None;
        }
        self.reported.insert(server, self.clock)?;
        Ok(())
    }

    // A server holds these replicas and nothing else. Takes no memory where that is known.
    fn note_replicas(&mut self, server: u64, replicas: &[ReplicaLine]) -> Result<(), PlanFault>
        ensures { OnOk result (self.new ≡ record self.old { holders = map.insert self.old.holders server (table_of_lines replicas.now) }) }
    {
        if are_known(&self.holders, server, replicas) {
            return Ok(());
        }
        let held = table_of_lines(self.alloc, replicas)?;
        let old = self.holders.get(server);
        let until = doubt_changed(self.alloc, self.whole_until, &mut self.doubted, old, &held);
        self.whole_until = None;
        self.holders.insert(server, held)?;
        self.whole_until = until;
        Ok(())
    }

    // Whether a server reported at a later moment than that of this step.
    fn reported_after(&self, server: u64) -> bool
        ensures { result ≡ nat_lt self.now.now (unwrap_or (map.get self.now.reported server) 0) }
    {
        match self.reported.get(server) {
            Some(last) => self.clock < *last,
            None => false,
        }
    }

    /// Whether any version number is under way.
    pub fn has_attempts(&self) -> bool
        ensures { result ≡ nat_lt 0 (map.len self.now.attempts) }
    {
        self.attempts.len() > 0
    }

    /// The version numbers that are under way, by the handles of their chunks.
    pub fn attempts(&self) -> &OrderedMap<VersionAttempt>
        ensures { result.now ≡ self.now.attempts }
    {
        &self.attempts
    }
}

// A server's version of a chunk, in the table of all servers.
fn note_version(
    alloc: Global,
    holders: &mut NumberMap<OrderedMap<u64>>,
    server: u64,
    handle: u64,
    version: u64,
) -> Result<(), AllocError>
    ensures { OnOk result (holders.new ≡ map.insert holders.old server (map.insert (unwrap_or (map.get holders.old server) map.empty) handle version)) }
{
    if let Some(held) = holders.get_mut(server) {
        return held.insert(handle, version);
    }
    let mut held = OrderedMap::new(alloc);
    held.insert(handle, version)?;
    holders.insert(server, held)
}

// Whether a server is known to hold just these replicas, which it reports in rising number.
fn are_known(holders: &NumberMap<OrderedMap<u64>>, server: u64, replicas: &[ReplicaLine]) -> bool
    ensures { result ≡ true → map.get holders.now server ≡ Some (table_of_lines replicas.now) }
{
    match holders.get(server) {
        Some(held) => are_same(held, replicas),
        None => false,
    }
}

fn are_same(held: &OrderedMap<u64>, replicas: &[ReplicaLine]) -> bool
    ensures { result ≡ true → held.now ≡ table_of_lines replicas.now }
{
    if held.len() != replicas.len() {
        return false;
    }
    let mut index = 0;
    for (handle, version) in held.iter() {
        if index >= replicas.len() || !is_line(replicas[index], *handle, *version) {
            return false;
        }
        index += 1;
    }
    true
}

fn is_line(line: ReplicaLine, handle: u64, version: u64) -> bool
    ensures { result ≡ ((line.handle.0 == handle) && (line.version.0 == version)) }
{
    line.handle.0 == handle && line.version.0 == version
}

// The versions of reported replicas by handle. The first line of a handle counts.
fn table_of_lines(alloc: Global, replicas: &[ReplicaLine]) -> Result<OrderedMap<u64>, AllocError>
    ensures { IfOk result (λ held. held ≡ table_of_lines replicas.now) }
{
    let mut held = OrderedMap::new(alloc);
    let count = replicas.len();
    for back in 0..count {
        let line = replicas[count - 1 - back];
        held.insert(line.handle.0, line.version.0)?;
    }
    Ok(held)
}

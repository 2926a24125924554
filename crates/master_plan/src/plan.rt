//! What the master knows, and what its step has come to so far.

ghost use Rattle.std.specs.Prelude.{◌≡◌, ◌≤◌, [], ◌∷◌, ◌++◌, OnOk, OnErr};
ghost use Rattle.std.specs.Option.{option_copied};
ghost use Rattle.std.specs.FinMap as map;
ghost use Rattle.protocol.specs.Tables.{moment_limit};
ghost use Rattle.protocol.specs.Master.{has_lease};
ghost use Rattle.master_plan.specs.Plans.{known, told};

use crate::change::PlannedChangeList;
use chunk_table::chunk::Chunk;
use gfs_types::config::Config;
use gfs_types::ids::{Handle, Moment, Node, Version};
use leases::master::ended;
use master_state::state::State;
use master_waiting::fault::PlanFault;
use master_waiting::waiting::{Pending, VersionAttempt};
use master_waiting::waiting_list::WaitingSnapshots;
use messages::message::{Body, Message};
use messages::message_lists::MessageList;
use ordered_map::OrderedMap;
use ordered_map::number_map::NumberMap;
use protocol::seen::{Seen, SeenList};
use rereplicate::whole::Doubted;
use std::alloc::{Allocator, Global};
use std::marker::Model;

/// The master while it takes a step: the changes that it makes of its log are put down here, and made as the step ends.
pub struct Plan<A: Allocator> {
    pub(crate) alloc: Global,
    pub(crate) config: Config,
    pub(crate) server_count: u16,
    pub(crate) clock: u64,
    pub(crate) state: State<A>,
    pub(crate) order_count: u64,
    pub(crate) attempts: OrderedMap<VersionAttempt>,
    pub(crate) snapshots: WaitingSnapshots,
    pub(crate) holders: NumberMap<OrderedMap<u64>>,
    pub(crate) reported: NumberMap<u64>,
    // a moment up to which no chunk lacks replicas but some of the doubted ones, as far as is known
    pub(crate) whole_until: Option<u64>,
    // where it is known, a moment at which no snapshot that waits is ready
    pub(crate) all_wait_until: Option<u64>,
    // where they are known, the files and chunks that the snapshots are about
    pub(crate) knows_concerned: bool,
    pub(crate) concerned_files: OrderedMap<()>,
    pub(crate) concerned_chunks: OrderedMap<()>,
    pub(crate) doubted: Doubted,
    pub(crate) sent: MessageList,
    pub(crate) changes: PlannedChangeList,
    pub(crate) seen: SeenList,
}

// Stands here, once, so that no function that lets one go, here or above, takes its fields apart.
impl<A: Allocator> Drop for Plan<A> {
    fn drop(self) {
        let Self {
            alloc: _,
            config: _,
            server_count: _,
            clock: _,
            state: _state,
            order_count: _,
            attempts: _attempts,
            snapshots: _snapshots,
            holders: _holders,
            reported: _reported,
            whole_until: _,
            all_wait_until: _,
            knows_concerned: _,
            concerned_files: _files,
            concerned_chunks: _chunks,
            doubted: _doubted,
            sent: _sent,
            changes: _changes,
            seen: _seen,
        } = self;
    }
}

impl<A: Allocator> Model for Plan<A> {
    ghost use Rattle.std.specs.Prelude.{◌≤◌, IfSome};
    ghost use Rattle.std.specs.Coded.{codes, coded_ℕ, coded_list};
    ghost use Rattle.std.specs.FinMap as map;
    ghost use Rattle.protocol.specs.Tables.{moment_limit};
    ghost use Rattle.master_plan.specs.Changes.{changes_of};
    ghost use Rattle.master_plan.specs.Plans.{PlanState};
    ghost use Rattle.master_plan.specs.Watched.{IsWholeAt};
    ghost use Rattle.master_waiting.specs.Concerned.{AreConcerned, IfKnown};
    ghost use Rattle.master_waiting.specs.Due.{WaitAt};

    ghost Value = { PlanState };

    ghost coded = { Prim.hlevel (codes, map.code, coded_list, coded_ℕ) };

    ghost view = { λ p. record {
      config = p.config;
      server_count = p.server_count;
      now = p.clock;
      logged = p.state;
      order_count = p.order_count;
      attempts = p.attempts;
      snapshots = p.snapshots;
      holders = p.holders;
      reported = p.reported;
      sent = p.sent;
      changes = changes_of p.changes;
      seen = p.seen;
    } };

    ghost invariant = { λ p. (((p.clock ≤ moment_limit) × (p.config.lease_ms ≤ 3600000))
        × IfKnown p.knows_concerned (AreConcerned p.state p.snapshots p.concerned_files p.concerned_chunks))
        × (IfSome p.whole_until (IsWholeAt p.config p.server_count p.state p.holders p.reported p.doubted)
        × IfSome p.all_wait_until (WaitAt p.state p.snapshots)) };
}

impl<A: Allocator + Clone> Plan<A> {
    pub fn alloc(&self) -> Global {
        self.alloc
    }

    /// The settings.
    pub fn config(&self) -> &Config
        ensures config { result.now ≡ self.now.config }
        ensures lease { result.now.lease_ms ≤ 3600000 }
    {
        &self.config
    }

    /// How many servers the cell has. They count from 1.
    pub fn server_count(&self) -> u16
        ensures { result ≡ self.now.server_count }
    {
        self.server_count
    }

    /// The greatest moment that the master was given.
    pub fn now(&self) -> Moment
        ensures now { result.0 ≡ self.now.now }
        ensures limit { result.0 ≤ moment_limit }
    {
        Moment(self.clock)
    }

    /// What the log keeps, as it will stand after this step.
    pub fn state(&self) -> &State<A>
        ensures { result.now ≡ self.now.logged }
    {
        &self.state
    }

    /// All names go, so that a replay finds the room that they took. Takes no memory.
    pub fn forget_names(&mut self, alloc: A)
        ensures { record self.new { logged = record self.new.logged { names = map.empty } } ≡ record self.old { logged = record self.old.logged { names = map.empty } } }
    {
        self.whole_until = None;
        self.all_wait_until = None;
        self.knows_concerned = false;
        self.state.forget_names(alloc);
    }

    /// How many orders were sent in this epoch.
    pub fn order_count(&self) -> u64
        ensures { result ≡ self.now.order_count }
    {
        self.order_count
    }

    /// The version number of a chunk that is under way.
    pub fn attempt(&self, handle: Handle) -> Option<&VersionAttempt>
        ensures { option_copied result ≡ map.get self.now.attempts handle.0 }
    {
        self.attempts.get(handle.0)
    }

    /// A version number of a chunk is under way from now on.
    pub fn put_attempt(&mut self, handle: Handle, attempt: VersionAttempt) -> Result<(), PlanFault>
        ensures { OnOk result (self.new ≡ record self.old { attempts = map.insert self.old.attempts handle.0 attempt }) }
    {
        self.attempts.insert(handle.0, attempt)?;
        Ok(())
    }

    /// None of a chunk is. Takes no memory.
    pub fn remove_attempt(&mut self, handle: Handle)
        ensures { self.new ≡ record self.old { attempts = map.remove self.old.attempts handle.0 } }
    {
        self.attempts.remove(handle.0);
    }

    /// The snapshots that wait, the oldest first.
    pub fn snapshots(&self) -> &[Pending]
        ensures { result.now ≡ self.now.snapshots }
    {
        self.snapshots.as_slice()
    }

    /// Whether the lease of a chunk that was granted has not ended.
    pub fn has_lease(&self, chunk: &Chunk) -> bool
        ensures { result ≡ has_lease (known self.now) chunk.now }
    {
        chunk.granted() > Version(0) && !ended(chunk, Moment(self.clock))
    }

    /// A message is sent.
    pub fn tell(&mut self, receiver: Node, body: Body) -> Result<(), PlanFault>
        ensures { OnOk result (self.new ≡ told self.old receiver body) }
    {
        self.sent.push(Message {
            number: 0,
            sender: Node::Master,
            receiver,
            body,
        })?;
        Ok(())
    }

    /// Something is seen of the step.
    pub fn see(&mut self, seen: Seen) -> Result<(), PlanFault>
        ensures { OnOk result (self.new ≡ record self.old { seen = self.old.seen ++ seen ∷ [] }) }
    {
        self.seen.push(seen)?;
        Ok(())
    }
}

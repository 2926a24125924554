//! An entry of the journal.

ghost use Rattle.std.specs.Prelude.{◌≡◌};
ghost use Rattle.cell_journal.specs.Entries.{cause_of};

pub use crate::step_cause::StepCause;
use gfs_types::ids::{Moment, Node};
use messages::event::StepOut;
use protocol::seen::SeenList;
use std::marker::Model;

/// A step of a node, what it gave, and what an observer sees of it.
pub struct JournalEntry {
    node: Node,
    moment: Moment,
    cause: StepCause,
    out: StepOut,
    seen: SeenList,
}

// Stands here, once, so that no function that lets one go, here or above, takes its fields apart.
impl Drop for JournalEntry {
    fn drop(self) {
        let Self {
            node: _,
            moment: _,
            cause: _cause,
            out: _out,
            seen: _seen,
        } = self;
    }
}

impl Model for JournalEntry {
    ghost use Rattle.protocol_journal.specs.Journal.{Entry};
    ghost use Rattle.cell_journal.specs.Entries.{entry, cause_of};

    ghost Value = { Entry };

    ghost view = { λ e. entry e.node e.moment.0 (cause_of e.cause) e.out e.seen };
}

impl JournalEntry {
    pub fn new(
        node: Node,
        moment: Moment,
        cause: StepCause,
        out: StepOut,
        seen: SeenList,
    ) -> JournalEntry
        ensures { result ≡ record { node = node; moment = moment.0; cause = cause_of cause; out = out; seen = seen } }
    {
        JournalEntry {
            node,
            moment,
            cause,
            out,
            seen,
        }
    }

    pub fn node(&self) -> Node
        ensures { result ≡ self.now.node }
    {
        self.node
    }

    pub fn moment(&self) -> Moment
        ensures { result.0 ≡ self.now.moment }
    {
        self.moment
    }

    pub fn cause(&self) -> &StepCause
        ensures { cause_of result.now ≡ self.now.cause }
    {
        &self.cause
    }

    /// What the step gave. The messages have the number 0.
    pub fn out(&self) -> &StepOut
        ensures { result.now ≡ self.now.out }
    {
        &self.out
    }

    /// What an observer sees of the step: what came to chunks.
    pub fn seen(&self) -> &SeenList
        ensures { result.now ≡ self.now.seen }
    {
        &self.seen
    }
}

//! A node's own writer of the journal.

ghost use Rattle.std.specs.Prelude.{◌≡◌, false, ◌+◌, ◌<◌, ◌≤◌, [], IfOk, IfSome, IfNone, OnErr};
ghost use Rattle.std.specs.Arc.{arc_value};
ghost use Rattle.protocol.specs.Tables.{moment_limit};
ghost use Rattle.protocol_journal.specs.Journal.{sent_after};
ghost use Rattle.cell_journal.specs.Clocks.{are_clocks_kept};
ghost use Rattle.cell_journal.specs.Entries.{entry, cause_of};
ghost use Rattle.cell_journal.specs.Rules.{IsStepOf};
ghost use Rattle.cell_journal.specs.WholeHistories.{all_seen, is_retired};
ghost use Rattle.cell_journal.specs.Writers.{IsAt, IsNodeWriter, IsLater, IsRead, GoesOn, IsSeen, HasLooked};

use crate::gate::Kind;
use crate::journal_look::look;
use crate::mailboxes::Input;
use crate::shared_state::SharedState;
use cell_journal::journal_entry::{JournalEntry, StepCause};
use cell_journal::{
    ExtendedHistory, HistoryLook, JournalWriter, begin, end, give_up, look as look_at_history,
};
use gfs_types::ids::{Moment, Node};
use gfs_types::refusal::Refusal;
use messages::event::StepOut;
use messages::message::Message;
use protocol::seen::SeenList;
use script::kinds::Kind as MessageKind;
use std::alloc::Global;
use std::sync::atomic::Ordering;
use std::sync::{Arc, Wait};
use std::time::Clock;

/// A node's journal: the writer of its steps, and what all nodes share.
pub struct NodeJournal {
    pub shared: Arc<SharedState>,
    pub node: Node,
    pub writer: JournalWriter,
    pub ghost here: { IsAt (arc_value shared).table.shared.table_id writer.table_id },
    pub ghost own: { IsNodeWriter node writer.me },
    pub ghost goes_on: { is_retired writer.me.0.of node ≡ false },
}

// Stands here, once, so that no crate above proves the drops of all that the nodes share.
impl Drop for NodeJournal {
    fn drop(self) {
        let Self {
            shared: _shared,
            node: _,
            writer: _writer,
        } = self;
    }
}

impl NodeJournal {
    pub fn new(shared: Arc<SharedState>, node: Node, writer: JournalWriter) -> NodeJournal
        requires here { IsAt (arc_value shared).table.shared.table_id writer.table_id }
        requires own { IsNodeWriter node writer.me }
        requires goes_on { is_retired writer.me.0.of node ≡ false }
        ensures { (result.node ≡ node) × (result.writer.me ≡ writer.me) }
    {
        NodeJournal {
            shared,
            node,
            writer,
        }
    }

    /// The moment now, if there is one.
    pub fn now(&self, rt: &impl Clock) -> Option<Moment>
        ensures { IfSome result (λ m. m.0 ≤ moment_limit) }
    {
        self.shared.now(rt)
    }

    /// The kind of what a step would be taken on. There is none where it can't be read, so that no step will be taken.
    pub fn kind(&mut self, rt: &impl Wait, input: Input) -> Option<Kind>
        ensures node { self.new.node ≡ self.old.node }
        ensures later { IsLater self.old.writer.me.0 self.new.writer.me.0 }
    {
        match input {
            Input::Deliver(number) => {
                let message = look(
                    rt,
                    &self.shared.table.shared,
                    &mut self.writer,
                    self.node,
                    number,
                )?;
                Some(Kind::Message(MessageKind::of(&message.body)))
            }
            Input::Tick => Some(Kind::Tick),
            Input::Restart => Some(Kind::Restart),
        }
    }

    /// Looks at the whole history, which stays as it is. None: the journal is gone.
    pub fn look(&mut self, rt: &impl Wait) -> Option<HistoryLook>
        ensures node { self.new.node ≡ self.old.node }
        ensures later { IsLater self.old.writer.me.0 self.new.writer.me.0 }
        ensures some { IfSome result (λ l. HasLooked self.new.node self.new.writer.me.0 l) }
    {
        look_at_history(rt, &self.shared.table.shared, &mut self.writer, self.node)
    }

    /// Makes room for a step, which is taken on the message of a number, if there is one.
    pub fn begin(&mut self, rt: &impl Wait, number: Option<u64>) -> Result<Option<Message>, Refusal>
        ensures node { self.new.node ≡ self.old.node }
        ensures later { IsLater self.old.writer.me.0 self.new.writer.me.0 }
        ensures ok { IfOk result (λ m. (self.new.writer.me.0.rooms ≡ self.old.writer.me.0.rooms + 1) × IsRead (sent_after [] self.new.writer.me.0.seen) self.new.node number m) }
        ensures err { OnErr result (self.new.writer.me.0.rooms ≡ self.old.writer.me.0.rooms) }
    {
        if self.shared.is_closing() {
            return Err(Refusal::Closed);
        }
        let begun = begin(
            rt,
            &self.shared.table.shared,
            &mut self.writer,
            self.node,
            number,
        );
        count_lost(&self.shared, &begun);
        begun
    }

    /// A step that was begun is not taken.
    pub fn give_up(&mut self, rt: &impl Wait)
        requires room { 0 < self.old.writer.me.0.rooms }
        ensures node { self.new.node ≡ self.old.node }
        ensures later { IsLater self.old.writer.me.0 self.new.writer.me.0 }
    {
        give_up(rt, &self.shared.table.shared, &mut self.writer, self.node);
    }

    /// Adds a step that was begun, and gives its messages to the network. Answers the history as it is then; none where the journal is gone.
    pub fn end(
        &mut self,
        rt: &impl Wait,
        alloc: Global,
        now: Moment,
        cause: StepCause,
        out: StepOut,
        seen: SeenList,
    ) -> Option<ExtendedHistory>
        requires room { 0 < self.old.writer.me.0.rooms }
        requires step { IsStepOf self.old.writer.me.0 (entry self.old.node now.0 (cause_of cause) out seen) }
        ensures node { self.new.node ≡ self.old.node }
        ensures some { IfSome result (λ l. GoesOn self.old.writer.me.0 self.new.writer.me.0 (entry self.old.node now.0 (cause_of cause) out seen) × IsSeen self.new.writer.me.0 l.beginning l.count) }
        ensures clocks { IfSome result (λ l. l.are_clocks_kept ≡ are_clocks_kept self.new.writer.me.0.of (all_seen self.new.writer.me.0)) }
        ensures none { IfNone result (self.new.writer.me ≡ self.old.writer.me) }
    {
        let receivers = receivers_of(alloc, &out);
        let entry = JournalEntry::new(self.node, now, cause, out, seen);
        let extended = end(
            rt,
            &self.shared.table.shared,
            &mut self.writer,
            self.node,
            entry,
        )?;
        self.shared.events.fetch_add(1, Ordering::SeqCst);
        deliver_all(rt, &self.shared, &receivers, extended.sent_before);
        Some(extended)
    }
}

// Counts a message that came too late.
fn count_lost(shared: &SharedState, begun: &Result<Option<Message>, Refusal>) {
    if let Err(Refusal::Unknown) = begun {
        shared.lost.fetch_add(1, Ordering::SeqCst);
    }
}

// Gives the network the numbers of a step's messages, which follow those that were sent before.
fn deliver_all(rt: &impl Wait, shared: &SharedState, receivers: &Vec<Node>, sent_before: u128) {
    let policy = shared.controls.policy();
    let mut number = sent_before;
    for to in receivers.as_slice() {
        number = number.saturating_add(1);
        if let Ok(number) = u64::try_from(number) {
            shared.senders.deliver(rt, policy, *to, number);
        }
    }
}

// To whom the messages of a step go. Those for which the list finds no memory don't come.
fn receivers_of(alloc: Global, out: &StepOut) -> Vec<Node> {
    let mut all = Vec::new(alloc);
    for message in out.sent.as_slice() {
        if all.push(message.receiver).is_err() {
            break;
        }
    }
    all
}

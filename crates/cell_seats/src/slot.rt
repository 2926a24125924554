//! A node with its writer of the journal, as its lock guards it.

ghost use Rattle.std.specs.Prelude.{◌≡◌, ◌<◌, ◌≤◌, [], true, Some, IfOk, IfErr, IfSome, IfNone, OnOk, OnErr, IsSome, MatchBool, IsTrue};
ghost use Rattle.gfs_types.specs.declared.refusal.Refusal.TheVariants.{JournalFull};
ghost use Rattle.protocol.specs.Tables.{moment_limit};
ghost use Rattle.protocol_journal.specs.Journal.{NodeState, sent_after, IsForNode, may_take, Calls as CallTaken};
ghost use Rattle.cell_journal.specs.Entries.{cause_of};
ghost use Rattle.cell_journal.specs.Writers.{IsLater, HasLooked};
ghost use Rattle.cell_seats.specs.Slots.{slot_state, IsLedTo, IsTakenOn, IsCopyOf, number_in, told_where, StepTaken, ActsOn, Acts};

use crate::gate::Gate;
use crate::mailboxes::Input;
use crate::node_journal::NodeJournal;
use crate::shared_state::SharedState;
use crate::stepper::{NodeStep, Stepper};
use cell_journal::journal_entry::StepCause;
use cell_journal::raised_entry::RaisedEntry;
use cell_journal::{Beginning, HistoryLook};
use gfs_types::answer::Answer;
use gfs_types::call::Call;
use gfs_types::ids::{Moment, Node};
use gfs_types::refusal::Refusal;
use messages::event::NodeInput;
use messages::message::Message;
use std::alloc::Global;
use std::marker::Model;
use std::sync::Wait;
use std::time::Clock;

/// A node with its journal. A node that took a step while the journal was closed is gone. While it is there, all its steps led to
/// the state in which it is.
pub struct Slot<N: Stepper + Drop> {
    alloc: Global,
    journal: NodeJournal,
    node: Option<N>,
}

// Stands here, once, so that no crate above proves the drops of all that a node shares.
impl<N: Stepper + Drop> Drop for Slot<N> {
    fn drop(self) {
        let Self {
            alloc: _,
            journal: _journal,
            node: _node,
        } = self;
    }
}

impl<N: Stepper + Drop> Model for Slot<N> {
    ghost use Rattle.std.specs.Prelude.{IfSome};
    ghost use Rattle.cell_seats.specs.Slots.{SlotState, slot_state, IsLedTo};

    ghost Value = { SlotState };

    ghost view = { λ s. slot_state s.journal.node s.journal.writer.me.0 };

    ghost invariant = { λ s. IfSome s.node (λ n. IsLedTo s.journal.writer.me.0 s.journal.node (N.stands n)) };
}

/// What a step gave its caller: a copy of its answer, if there was one, and the history as it was then, with its length. No answer is told where
/// clocks were not kept (ClockBroken).
#[derive(Drop)]
pub struct StepResult {
    pub answer: Result<Option<Answer>, Refusal>,
    pub beginning: Beginning<RaisedEntry>,
    pub count: usize,
}

impl<N: Stepper + Drop> Slot<N> {
    pub fn new(alloc: Global, journal: NodeJournal, node: N) -> Slot<N>
        requires led { IsLedTo journal.writer.me.0 journal.node (N.stands node) }
        ensures { result ≡ slot_state journal.node journal.writer.me.0 }
    {
        Slot {
            alloc,
            journal,
            node: Some(node),
        }
    }

    /// Looks at its cell's whole history, which stays as it is. None: the journal is gone.
    pub fn look<R: Wait>(&mut self, rt: &R) -> Option<HistoryLook>
        ensures node { self.new.node ≡ self.old.node }
        ensures later { IsLater self.old.view self.new.view }
        ensures some { IfSome result (λ l. HasLooked self.new.node self.new.view l) }
    {
        self.journal.look(rt)
    }

    /// Which node it is.
    pub fn name(&self) -> Node
        ensures { result ≡ self.now.node }
    {
        self.journal.node
    }

    /// Takes the node out for good, if it is there. All its steps led to the state in which it is.
    pub fn take_node(&mut self) -> Option<N>
        ensures same { self.new ≡ self.old }
        ensures node { IfSome result (λ n. IsLedTo self.old.view self.old.node (N.stands n)) }
    {
        self.node.take()
    }

    /// What it shares with the other nodes of its cell.
    pub fn shared(&self) -> &SharedState {
        &self.journal.shared
    }

    /// Takes one step and adds it to the journal, or none and answers false.
    pub fn act<R: Wait + Clock, G: Gate>(&mut self, rt: &R, input: Input, gate: &G) -> bool
        ensures node { self.new.node ≡ self.old.node }
        ensures acts { MatchBool result (Acts self.old.node self.old.view self.new.view input) (IsLater self.old.view self.new.view) }
    {
        match self.take(rt, input, gate) {
            Ok(_) => true,
            Err(_) => false,
        }
    }

    /// A step on a message, a tick or a restart.
    pub fn take<R: Wait + Clock, G: Gate>(
        &mut self,
        rt: &R,
        input: Input,
        gate: &G,
    ) -> Result<StepResult, Refusal>
        ensures node { self.new.node ≡ self.old.node }
        ensures ok { IfOk result (λ t. ActsOn self.old.node self.old.view self.new.view input t.answer t.beginning t.count) }
        ensures err { OnErr result (IsLater self.old.view self.new.view) }
    {
        take_in(
            rt,
            self.alloc,
            &mut self.journal,
            &mut self.node,
            input,
            gate,
        )
    }

    /// A call. Where there is no memory for a copy of it, it takes no step (JournalFull).
    pub fn call<R: Wait + Clock>(&mut self, rt: &R, call: Call) -> Result<StepResult, Refusal>
        ensures node { self.new.node ≡ self.old.node }
        ensures ok { IfOk result (λ t. StepTaken self.old.node self.old.view self.new.view (CallTaken call) t.answer t.beginning t.count) }
        ensures err { OnErr result (IsLater self.old.view self.new.view) }
    {
        call_in(rt, self.alloc, &mut self.journal, &mut self.node, call)
    }
}

// A step of a node on what an input names.
fn take_in<R: Wait + Clock, N: Stepper + Drop, G: Gate>(
    rt: &R,
    alloc: Global,
    journal: &mut NodeJournal,
    node: &mut Option<N>,
    input: Input,
    gate: &G,
) -> Result<StepResult, Refusal>
    requires led { IfSome node.old (λ n. IsLedTo journal.old.writer.me.0 journal.old.node (N.stands n)) }
    ensures node { journal.new.node ≡ journal.old.node }
    ensures led { IfSome node.new (λ n. IsLedTo journal.new.writer.me.0 journal.new.node (N.stands n)) }
    ensures ok { IfOk result (λ t. ActsOn journal.old.node journal.old.writer.me.0 journal.new.writer.me.0 input t.answer t.beginning t.count) }
    ensures err { OnErr result (IsLater journal.old.writer.me.0 journal.new.writer.me.0) }
{
    if !pass(rt, journal, input, gate) {
        return Err(Refusal::NoMemory);
    }
    let message = journal.begin(rt, number_of(input))?;
    let cause = cause_on(input, message);
    steps(rt, alloc, journal, node, cause, None)
}

// Whether the step may be taken: the gate is open, or was told of it and let it pass. It isn't told where what the step would be taken on can't be read.
fn pass<R: Wait, G: Gate>(rt: &R, journal: &mut NodeJournal, input: Input, gate: &G) -> bool
    ensures node { journal.new.node ≡ journal.old.node }
    ensures later { IsLater journal.old.writer.me.0 journal.new.writer.me.0 }
{
    if gate.is_open() {
        return true;
    }
    match journal.kind(rt, input) {
        Some(kind) => {
            gate.before(journal.node, kind);
            true
        }
        None => false,
    }
}

// A step of a node on a call.
fn call_in<R: Wait + Clock, N: Stepper + Drop>(
    rt: &R,
    alloc: Global,
    journal: &mut NodeJournal,
    node: &mut Option<N>,
    call: Call,
) -> Result<StepResult, Refusal>
    requires led { IfSome node.old (λ n. IsLedTo journal.old.writer.me.0 journal.old.node (N.stands n)) }
    ensures node { journal.new.node ≡ journal.old.node }
    ensures led { IfSome node.new (λ n. IsLedTo journal.new.writer.me.0 journal.new.node (N.stands n)) }
    ensures ok { IfOk result (λ t. StepTaken journal.old.node journal.old.writer.me.0 journal.new.writer.me.0 (CallTaken call) t.answer t.beginning t.count) }
    ensures err { OnErr result (IsLater journal.old.writer.me.0 journal.new.writer.me.0) }
{
    let copy = copied(alloc, &call)?;
    journal.begin(rt, None)?;
    steps(rt, alloc, journal, node, StepCause::Calls(call), Some(copy))
}

// A step for which there is room.
fn steps<R: Wait + Clock, N: Stepper + Drop>(
    rt: &R,
    alloc: Global,
    journal: &mut NodeJournal,
    node: &mut Option<N>,
    cause: StepCause,
    call: Option<Call>,
) -> Result<StepResult, Refusal>
    requires led { IfSome node.old (λ n. IsLedTo journal.old.writer.me.0 journal.old.node (N.stands n)) }
    requires copy { IsCopyOf (cause_of cause) call }
    requires room { 0 < journal.old.writer.me.0.rooms }
    requires reads { IsForNode (sent_after [] journal.old.writer.me.0.seen) journal.old.node (cause_of cause) }
    ensures node { journal.new.node ≡ journal.old.node }
    ensures led { IfSome node.new (λ n. IsLedTo journal.new.writer.me.0 journal.new.node (N.stands n)) }
    ensures ok { IfOk result (λ t. StepTaken journal.old.node journal.old.writer.me.0 journal.new.writer.me.0 (cause_of cause) t.answer t.beginning t.count) }
    ensures err { OnErr result (IsLater journal.old.writer.me.0 journal.new.writer.me.0) }
{
    match ready(rt, journal, node, &cause) {
        Ok(now) => try_step(rt, alloc, journal, node, now, cause, call),
        Err(refusal) => {
            journal.give_up(rt);
            Err(refusal)
        }
    }
}

// The moment of a step on this, if the node takes one.
fn ready<R: Clock, N: Stepper + Drop>(
    rt: &R,
    journal: &NodeJournal,
    node: &Option<N>,
    cause: &StepCause,
) -> Result<Moment, Refusal>
    ensures moment { IfOk result (λ m. m.0 ≤ moment_limit) }
    ensures some { OnOk result (IsSome node.now) }
    ensures may { OnOk result ((n : N) → node.now ≡ Some n → (s : NodeState) → N.stands n s → IsTrue (may_take s (cause_of cause.now))) }
{
    let Some(now) = journal.now(rt) else {
        return Err(Refusal::ClockBroken);
    };
    if may_take(node, cause) {
        Ok(now)
    } else {
        Err(Refusal::Closed)
    }
}

// A step that the node takes.
fn try_step<R: Wait + Clock, N: Stepper + Drop>(
    rt: &R,
    alloc: Global,
    journal: &mut NodeJournal,
    node: &mut Option<N>,
    now: Moment,
    cause: StepCause,
    call: Option<Call>,
) -> Result<StepResult, Refusal>
    requires led { IfSome node.old (λ n. IsLedTo journal.old.writer.me.0 journal.old.node (N.stands n)) }
    requires moment { now.0 ≤ moment_limit }
    requires copy { IsCopyOf (cause_of cause) call }
    requires some { IsSome node.old }
    requires may { (n : N) → node.old ≡ Some n → (s : NodeState) → N.stands n s → IsTrue (may_take s (cause_of cause)) }
    requires room { 0 < journal.old.writer.me.0.rooms }
    requires reads { IsForNode (sent_after [] journal.old.writer.me.0.seen) journal.old.node (cause_of cause) }
    ensures node { journal.new.node ≡ journal.old.node }
    ensures led { IfSome node.new (λ n. IsLedTo journal.new.writer.me.0 journal.new.node (N.stands n)) }
    ensures ok { IfOk result (λ t. StepTaken journal.old.node journal.old.writer.me.0 journal.new.writer.me.0 (cause_of cause) t.answer t.beginning t.count) }
    ensures err { OnErr result (IsLater journal.old.writer.me.0 journal.new.writer.me.0) }
{
    match node.take() {
        Some(taker) => match step_with(journal, rt, alloc, taker, now, cause, call) {
            Some(stepped) => {
                *node = Some(stepped.node);
                Ok(stepped.taken)
            }
            None => Err(Refusal::Closed),
        },
        None => unreachable!(),
    }
}

/// A node after its step, and what the step gave.
#[derive(Drop)]
struct SteppedNode<N: Stepper + Drop> {
    node: N,
    taken: StepResult,
}

// Whether the node, if it is there, takes a step on this.
fn may_take<N: Stepper + Drop>(node: &Option<N>, cause: &StepCause) -> bool
    ensures some { result ≡ true → IsSome node.now }
    ensures may { result ≡ true → (n : N) → node.now ≡ Some n → (s : NodeState) → N.stands n s → IsTrue (may_take s (cause_of cause.now)) }
{
    match node {
        Some(node) => node.may_take(cause),
        None => false,
    }
}

// The node takes its step, and the journal has it. None: the journal is gone.
fn step_with<R: Wait, N: Stepper + Drop>(
    journal: &mut NodeJournal,
    rt: &R,
    alloc: Global,
    node: N,
    now: Moment,
    cause: StepCause,
    call: Option<Call>,
) -> Option<SteppedNode<N>>
    requires led { IsLedTo journal.old.writer.me.0 journal.old.node (N.stands node) }
    requires moment { now.0 ≤ moment_limit }
    requires may { (s : NodeState) → N.stands node s → IsTrue (may_take s (cause_of cause)) }
    requires copy { IsCopyOf (cause_of cause) call }
    requires room { 0 < journal.old.writer.me.0.rooms }
    requires reads { IsForNode (sent_after [] journal.old.writer.me.0.seen) journal.old.node (cause_of cause) }
    ensures node { journal.new.node ≡ journal.old.node }
    ensures led { IfSome result (λ w. IsLedTo journal.new.writer.me.0 journal.new.node (N.stands w.node)) }
    ensures some { IfSome result (λ w. StepTaken journal.old.node journal.old.writer.me.0 journal.new.writer.me.0 (cause_of cause) w.taken.answer w.taken.beginning w.taken.count) }
    ensures none { IfNone result (journal.new.writer.me ≡ journal.old.writer.me) }
{
    let mut node = node;
    let given = node.step(now, &cause, call);
    let NodeStep { out, answer, seen } = given;
    match journal.end(rt, alloc, now, cause, out, seen) {
        Some(extended) => {
            let told = told_where(extended.are_clocks_kept, answer);
            Some(SteppedNode {
                node,
                taken: StepResult {
                    answer: told,
                    beginning: extended.beginning,
                    count: extended.count,
                },
            })
        }
        None => None,
    }
}

fn number_of(input: Input) -> Option<u64>
    ensures { result ≡ number_in input }
{
    match input {
        Input::Deliver(number) => Some(number),
        Input::Tick => None,
        Input::Restart => None,
    }
}

// What the step is taken on, once its message is there.
fn cause_on(input: Input, message: Option<Message>) -> StepCause
    ensures { IsTakenOn input message (cause_of result) }
{
    match input {
        Input::Restart => StepCause::Restarts,
        _ => match message {
            Some(message) => StepCause::Takes(NodeInput::Deliver(message)),
            None => StepCause::Takes(NodeInput::Tick),
        },
    }
}

// A copy of a call that is to be made.
fn copied(alloc: Global, call: &Call) -> Result<Call, Refusal>
    ensures ok { IfOk result (λ c. c ≡ call.now) }
    ensures err { IfErr result (λ refusal. refusal ≡ JournalFull) }
{
    match call.copy(alloc) {
        Ok(copy) => Ok(copy),
        Err(_) => Err(Refusal::JournalFull),
    }
}

// A step's answer, if clocks were kept up to it.
fn told_where(are_clocks_kept: bool, answer: Option<Answer>) -> Result<Option<Answer>, Refusal>
    ensures { result ≡ told_where are_clocks_kept answer }
{
    if are_clocks_kept {
        Ok(answer)
    } else {
        Err(Refusal::ClockBroken)
    }
}

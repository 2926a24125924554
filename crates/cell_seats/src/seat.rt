//! A client, which runs inside its calls.

ghost use Rattle.std.specs.Prelude.{◌≡◌, ℕ, IfOk, IfErr, IfSome, [], None, false, length, IsTrue};
ghost use Rattle.gfs_types.specs.declared.ids.Node.TheVariants.{Client};
ghost use Rattle.protocol_journal.specs.Journal.{observer_of, own};
ghost use Rattle.headline.specs.Journals.{AreExplained};
ghost use Rattle.cell_journal.specs.Log.{listed};
ghost use Rattle.cell_journal.specs.Clocks.{are_clocks_kept};
ghost use Rattle.cell_journal.specs.WholeHistories.{IsHistoryOf};
ghost use Rattle.cell_seats.specs.Seats.{IsAnswered, IsLost, seat_state, IsSeat, is_the_cells};
ghost use Rattle.cell_seats.specs.ParkedNodes.{IsClientOf, SitsOn};
ghost use Rattle.cell_seats.specs.Seen.{of_client, visible_of, clients_in};

use crate::client_call::{AnsweredCall, CallFault, ask};
use crate::mailboxes::MailboxItem;
use crate::parked_node::{ParkedNode, look_until};
use crate::shared_state::SharedState;
use crate::slot::Slot;
use crate::stepper::Stepper;
use cell_journal::Beginning;
use cell_journal::raised_entry::RaisedEntry;
use crossbeam_channel::Receiver;
use gfs_types::answer::Answer;
use gfs_types::call::Call;
use gfs_types::ids::Node;
use gfs_types::refusal::Refusal;
use std::marker::Model;
use std::sync::Wait;
use std::sync::atomic::Ordering;
use std::time::Clock;

/// A client of a running cell.
pub struct Seat<N: Stepper + Drop> {
    slot: Slot<N>,
    inbox: Receiver<MailboxItem>,
    view: Beginning<RaisedEntry>,
    count: usize,
    /// The bit of this client among those that are in a call.
    bit: u64,
    /// Which clients it was before, from the first one on.
    earlier: [bool; 64],
    /// Why no call of this client is taken any more.
    lost: Option<Refusal>,
    /// Whether a call of it stands in the journal that was not answered, where clocks were kept.
    waits: bool,
}

// Stands here, once, so that no crate above proves the drops of all that a client owns.
impl<N: Stepper + Drop> Drop for Seat<N> {
    fn drop(self) {
        let Self {
            slot: _slot,
            inbox: _inbox,
            view: _view,
            count: _,
            bit: _,
            earlier: _,
            lost: _,
            waits: _,
        } = self;
    }
}

impl<N: Stepper + Drop> Model for Seat<N> {
    ghost use Rattle.cell_seats.specs.Seats.{SeatState, seat_state, is_some, IsSeat};
    ghost use Rattle.cell_seats.specs.Seen.{clients_in};

    ghost Value = { SeatState };

    ghost view = { λ s. seat_state s.slot.node (clients_in 0 s.earlier) s.slot.view.of s.view.items (is_some s.lost) s.waits };

    ghost invariant = { λ s. IsSeat s.slot.node (clients_in 0 s.earlier) s.slot.view s.view s.count s.lost s.waits };
}

impl<N: Stepper + Drop> Seat<N> {
    /// A client that made no call yet, and saw the journal so.
    #[tactic(auto, using(crate::proofs::Flags::no_clients))]
    pub fn new(
        slot: Slot<N>,
        inbox: Receiver<MailboxItem>,
        view: Beginning<RaisedEntry>,
        count: usize,
        bit: u64,
    ) -> Seat<N>
        requires { IsSeat slot.node [] slot.view view count None false }
        ensures { result ≡ seat_state slot.node [] slot.view.of view.items false false }
    {
        Seat {
            slot,
            inbox,
            view,
            count,
            bit,
            earlier: [false; 64],
            lost: None,
            waits: false,
        }
    }

    /// How many steps of the cell it has seen: all up to its last answer. They are a lawful history of its cell, in which clocks were kept,
    /// and their calls and answers are a run of the machine, in which this client has its own.
    pub fn seen(&self) -> u64
        ensures count { result ≡ length self.now.seen }
        ensures lawful { IsHistoryOf self.now.cell self.now.seen }
        ensures clocks { IsTrue (are_clocks_kept self.now.cell self.now.seen) }
        ensures explained { AreExplained self.now.cell.config self.now.seen }
        ensures own { (client : ℕ) → self.now.node ≡ Client (record { 0 = client }) → of_client client (observer_of self.now.cell.config self.now.seen).trace ≡ visible_of (own self.now.node self.now.seen) }
    {
        self.count as u64
    }

    /// The cell's whole history as it was at the last answer.
    pub fn view(&self) -> &Beginning<RaisedEntry>
        ensures { result.now ≡ listed self.now.cell.name self.now.seen }
    {
        &self.view
    }

    /// Takes the client out, once it saw the whole history, which has so many entries, where their number is given. None: the client is gone, or
    /// its journal was closed or parked before. The client takes no steps any more.
    pub fn park<R: Wait>(&mut self, rt: &R, count: Option<usize>) -> Option<ParkedNode<N>>
        ensures same { self.new ≡ self.old }
        ensures client { IfSome result (λ p. IsClientOf self.old p) }
        ensures count { IfSome result (λ p. IfSome count (λ k. length p.history.items ≡ k)) }
    {
        let look = look_until(rt, &mut self.slot, count)?;
        ParkedNode::of(&mut self.slot, look)
    }

    /// The seat of a cell that goes on: its client makes its calls from now on as this node, and was these before.
    pub fn sit(
        self,
        slot: Slot<N>,
        inbox: Receiver<MailboxItem>,
        bit: u64,
        earlier: [bool; 64],
    ) -> Seat<N>
        requires { SitsOn self slot.node (clients_in 0 earlier) slot.view }
        ensures { result ≡ seat_state slot.node (clients_in 0 earlier) slot.view.of self.seen false false }
    {
        let Self {
            slot: _slot,
            inbox: _inbox,
            view,
            count,
            bit: _,
            earlier: _,
            lost: _,
            waits: _,
        } = self;
        Seat {
            slot,
            inbox,
            view,
            count,
            bit,
            earlier,
            lost: None,
            waits: false,
        }
    }

    /// Which clients it was before, from the first one on.
    pub fn earlier(&self) -> [bool; 64]
        ensures { clients_in 0 result ≡ self.now.earlier }
    {
        self.earlier
    }

    /// Whether a call of it stands in the journal that was not answered, where clocks were kept.
    pub fn waits(&self) -> bool
        ensures { result ≡ self.now.waits }
    {
        self.waits
    }

    /// Which client it is.
    pub fn name(&self) -> Node
        ensures { result ≡ self.now.node }
    {
        self.slot.name()
    }

    /// Makes a call, and waits for its answer. After a refusal of the cell itself every later call is refused so too, until the seat goes on with a parked cell.
    pub fn call<R: Wait + Clock>(&mut self, rt: &R, call: Call) -> Result<Answer, Refusal>
        ensures ok { IfOk result (λ reply. IsAnswered self.old self.new call reply) }
        ensures err { IfErr result (λ refusal. IsLost self.old self.new refusal) }
    {
        if let Some(refusal) = self.lost {
            return Err(refusal);
        }
        self.lost = Some(Refusal::Closed);
        mark_calling(self.slot.shared(), self.bit, true);
        let answered = ask(rt, &mut self.slot, &self.inbox, call);
        mark_calling(self.slot.shared(), self.bit, false);
        match answered {
            Ok(
                AnsweredCall {
                    answer,
                    beginning,
                    count,
                },
            ) => {
                count_answer(self.slot.shared());
                self.view = beginning;
                self.count = count;
                self.lost = None;
                Ok(answer)
            }
            Err(CallFault { refusal, stands }) => {
                let own = of_the_cell(refusal);
                self.lost = Some(own);
                self.waits = stands;
                Err(own)
            }
        }
    }
}

// The refusal, if it is one of the cell itself. One of another kind than it gives says no more than that the cell is closed.
fn of_the_cell(refusal: Refusal) -> Refusal
    ensures { IsTrue (is_the_cells result) }
{
    match refusal {
        Refusal::ClockBroken => Refusal::ClockBroken,
        Refusal::JournalFull => Refusal::JournalFull,
        _ => Refusal::Closed,
    }
}

fn count_answer(shared: &SharedState) {
    shared.answered.fetch_add(1, Ordering::SeqCst);
}

fn mark_calling(shared: &SharedState, bit: u64, is_calling: bool) {
    if is_calling {
        shared.calling.fetch_or(bit, Ordering::SeqCst);
    } else {
        shared.calling.fetch_and(!bit, Ordering::SeqCst);
    }
}

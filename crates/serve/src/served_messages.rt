//! What the threads of a served cell tell each other.

ghost use Rattle.std.specs.Prelude.{◌≡◌};

use cell_journal::Beginning;
use cell_journal::raised_entry::RaisedEntry;
use cell_seats::mailboxes::Policy;
use gfs_types::answer::Answer;
use gfs_types::call::Call;
use gfs_types::ids::{ClientId, Node};
use script::script_fault::ScriptFault;
use std::marker::{Brand, Model, PhantomData};

/// Names what is served, for clauses alone: all threads speak of the same.
pub trait Serving {
    ghost use Rattle.serve.specs.Messages.{Service};

    ghost of: { Service };
}

impl Serving for Brand {
    ghost use Rattle.serve.specs.Messages.{nothing_served};

    ghost of = { nothing_served };
}

/// A client's call, and how many calls the lines have for this client before it.
#[derive(Drop)]
pub struct AskedCall<S: Serving> {
    pub client: ClientId,
    pub number: u64,
    pub call: Call,
    pub of: PhantomData<S>,
}

impl<S: Serving> Model for AskedCall<S> {
    ghost use Rattle.gfs_types.specs.declared.call.Call.{Call};
    ghost use Rattle.serve.specs.Messages.{IsAsked};

    ghost Value = { Call };

    ghost view = { λ a. a.call };

    ghost invariant = { λ a. IsAsked S.of a.client.0 a.number a.call };
}

/// What a client was answered, and how many answers it had before; whether the cell itself refused the call, and the cell's whole history up to the
/// client's last answer, which clauses read.
#[derive(Drop)]
pub struct Reply<S: Serving> {
    pub client: ClientId,
    pub number: u64,
    pub answer: Answer,
    pub is_lost: bool,
    pub seen: Beginning<RaisedEntry>,
    pub of: PhantomData<S>,
}

impl<S: Serving> Model for Reply<S> {
    ghost use Rattle.serve.specs.Messages.{Replied, replied, IsReply};

    ghost Value = { Replied };

    ghost view = { λ r. replied r.client.0 r.number r.answer r.is_lost };

    ghost invariant = { λ r. IsReply S.of r.client.0 r.number r.answer r.seen r.is_lost };
}

impl<S: Serving> Reply<S> {
    /// The client's number.
    pub fn client(&self) -> u64
        ensures { result ≡ self.now.client }
    {
        self.client.0
    }
}

/// What is to be done by whoever has the cell.
#[derive(Drop)]
pub enum Told<S: Serving> {
    /// To print an answer.
    Answered(Reply<S>),
    /// To print for how many steps more there is room in the journal.
    Room,
    /// To ask a node to begin again.
    Restart(Node),
    /// To have the network lose, repeat and hold up messages by this policy.
    Net(Policy),
}

/// How many calls each client was asked for, and why no more lines were taken, if it was not for their end.
#[derive(Drop)]
pub struct Asked<S: Serving> {
    pub asked: Vec<u64>,
    pub outcome: Result<(), ScriptFault>,
    pub of: PhantomData<S>,
}

impl<S: Serving> Model for Asked<S> {
    ghost use Rattle.std.specs.Prelude.{List, ℕ};
    ghost use Rattle.serve.specs.Messages.{AreAsked};

    ghost Value = { List ℕ };

    ghost view = { λ a. a.asked.items };

    ghost invariant = { λ a. AreAsked S.of a.outcome a.asked.items };
}

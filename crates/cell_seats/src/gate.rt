//! What stands before a node's steps.

use gfs_types::ids::Node;
use script::kinds::Kind as MessageKind;

/// What a step is to be taken on, whatever it says.
#[derive(Clone, Copy, Debug, PartialEq, Eq)]
pub enum Kind {
    Message(MessageKind),
    /// A client's. No gate is told of one, since a client has no lock.
    Call,
    Tick,
    Restart,
}

/// Is told of each step of the master or a server before there is room for it in the journal, and may hold it up. Other nodes go on meanwhile.
/// The restarts with which a resumed cell begins are told to none.
pub trait Gate {
    fn before(&self, node: Node, kind: Kind);

    /// Whether it lets every step pass, so that it need not be told of any.
    fn is_open(&self) -> bool {
        false
    }
}

/// Lets every step pass.
#[derive(Clone, Copy)]
pub struct OpenGate;

impl Gate for OpenGate {
    fn before(&self, _node: Node, _kind: Kind) {}

    fn is_open(&self) -> bool {
        true
    }
}

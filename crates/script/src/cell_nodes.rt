//! The names of nodes.

ghost use Rattle.std.specs.Prelude.{◌≡◌};
ghost use Rattle.script.specs.CellNodes.{node_of, server_of};

use crate::nodes::client;
use crate::numbers::number;
use gfs_types::ids::{Node, ServerId};

/// The chunkserver that a word names: `s1`, `s2` and so on, without leading zeros.
pub fn server(word: &[u8]) -> Option<ServerId>
    ensures { result ≡ server_of word.now }
{
    match word {
        [b's', b'1'..=b'9', ..] => {
            let number = u16::try_from(number(&word[1..])?).ok()?;
            Some(ServerId(number))
        }
        _ => None,
    }
}

/// The node that a word names: `master`, a chunkserver, or a client as `c1`.
pub fn node(word: &[u8]) -> Option<Node>
    ensures { result ≡ node_of word.now }
{
    if word == b"master".as_slice() {
        return Some(Node::Master);
    }
    if let Some(server) = server(word) {
        return Some(Node::Server(server));
    }
    Some(Node::Client(client(word)?))
}

//! The names of nodes.

ghost use Rattle.std.specs.Prelude.{◌≡◌};
ghost use Rattle.script.specs.Nodes.{client_of};

use crate::numbers::number;
use gfs_types::ids::ClientId;

/// The client that a word names: `c1`, `c2` and so on, without leading zeros.
pub fn client(word: &[u8]) -> Option<ClientId>
    ensures { result ≡ client_of word.now }
{
    match word {
        [b'c', b'1'..=b'9', ..] => Some(ClientId(number(&word[1..])?)),
        _ => None,
    }
}

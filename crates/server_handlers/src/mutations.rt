//! Who else applies a mutation, and who sent a message.

ghost use Rattle.std.specs.Prelude.{◌≡◌, IfOk};
ghost use Rattle.protocol.specs.Sending.{server_number};
ghost use Rattle.protocol.specs.Tables.{without};

use gfs_types::ids::{Node, ServerId};
use gfs_types::lists::ServerList;
use gfs_types::no_memory::NoMemory;
use std::alloc::Global;

/// The members without one.
pub fn others(alloc: Global, members: &ServerList, me: ServerId) -> Result<ServerList, NoMemory>
    ensures { IfOk result (λ l. l ≡ without members.now me.0) }
{
    let mut left = Vec::new(alloc);
    for member in members.as_slice() {
        if *member != me.0 {
            left.push(*member)?;
        }
    }
    Ok(ServerList::new(left))
}

/// The number of a server that sent something; 0 of other nodes.
pub fn server_number(node: Node) -> ServerId
    ensures { result.0 ≡ server_number node }
{
    match node {
        Node::Server(server) => server,
        Node::Master | Node::Client(_) => ServerId(0),
    }
}

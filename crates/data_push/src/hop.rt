//! The order in which servers pass data on.

ghost use Rattle.std.specs.Prelude.{◌≡◌, Some, nat_lt, if◌then◌else◌};
ghost use Rattle.data_push.specs.NextHop.{IsNextHop, lower_of, next_hop_of};

use gfs_types::ids::ServerId;

/// The server to pass data on to: of those listed the lowest above `me`. `None` where none is above.
pub fn next_hop(servers: &[ServerId], me: ServerId) -> Option<ServerId>
    ensures lowest { IsNextHop servers.now me result }
    ensures value { result ≡ next_hop_of servers.now me }
{
    let mut hop = None;
    for server in servers {
        hop = nearer(hop, *server, me);
    }
    hop
}

// The nearer of the two to `me`, from above.
fn nearer(hop: Option<ServerId>, server: ServerId, me: ServerId) -> Option<ServerId>
    ensures { result ≡ (if nat_lt me.0 server.0 then Some (lower_of server hop) else hop) }
{
    if server <= me {
        return hop;
    }
    match hop {
        Some(lowest) if lowest <= server => hop,
        _ => Some(server),
    }
}

//! The source and the target of a clone.

ghost use Rattle.std.specs.Prelude.{◌≡◌, ◌≤◌, ℕ, length, option_map};
ghost use Rattle.rereplicate.specs.Servers.{server_id, held_at, held_version, current_at, current_holders, closed_at, source, is_free, lesser, target};

use crate::holders::Holders;
use chunk_table::chunk::Chunk;
use gfs_types::ids::{Handle, ServerId, Version};

// A server with the version of its replica.
#[derive(Clone, Copy)]
pub(crate) struct HeldVersion {
    pub(crate) server: ServerId,
    pub(crate) version: Version,
}

// The version of a server that is present and current.
fn current_version<H: Holders>(
    holders: &H,
    chunk: &Chunk,
    handle: Handle,
    server: ServerId,
) -> Option<Version>
    ensures { option_map (held_at server.0) result ≡ current_at (H.servers holders.now) handle.0 chunk.now server.0 }
{
    if !holders.is_present(server) {
        return None;
    }
    let Some(version) = holders.version(handle, server) else {
        return None;
    };
    if chunk.granted() <= version {
        Some(version)
    } else {
        None
    }
}

pub(crate) fn count_current<H: Holders>(holders: &H, chunk: &Chunk, handle: Handle) -> u64
    ensures { result ≡ length (current_holders (H.servers holders.now) handle.0 chunk.now) }
{
    let mut count: u64 = 0;
    for index in 0..holders.server_count() {
        if current_version(holders, chunk, handle, ServerId(index + 1)).is_some() {
            count += 1;
        }
    }
    count
}

// The lowest of the present current holders whose version is closed.
pub(crate) fn source<H: Holders>(holders: &H, chunk: &Chunk, handle: Handle) -> Option<HeldVersion>
    ensures { result ≡ option_map held_version (source (H.servers holders.now) handle.0 chunk.now) }
{
    let mut found = None;
    for index in 0..holders.server_count() {
        if found.is_none() {
            found = closed_at(holders, chunk, handle, ServerId(index + 1));
        }
    }
    found
}

fn closed_at<H: Holders>(
    holders: &H,
    chunk: &Chunk,
    handle: Handle,
    server: ServerId,
) -> Option<HeldVersion>
    ensures { result ≡ option_map held_version (closed_at (H.servers holders.now) handle.0 chunk.now server.0) }
{
    let Some(version) = current_version(holders, chunk, handle, server) else {
        return None;
    };
    if holders.is_under_way(handle, version) {
        return None;
    }
    Some(HeldVersion { server, version })
}

// The present server without a replica that has the fewest chunks, then the lowest number.
pub(crate) fn target<H: Holders>(holders: &H, handle: Handle) -> Option<ServerId>
    ensures { result ≡ option_map server_id (target (H.servers holders.now) handle.0) }
{
    let mut best = None;
    for index in 0..holders.server_count() {
        let server = ServerId(index + 1);
        if is_free(holders, handle, server) {
            best = Some(with_fewer(holders, best, server));
        }
    }
    best
}

fn is_free<H: Holders>(holders: &H, handle: Handle, server: ServerId) -> bool
    ensures { result ≡ is_free (H.servers holders.now) handle.0 server.0 }
{
    holders.is_present(server) && holders.version(handle, server).is_none()
}

fn with_fewer<H: Holders>(holders: &H, best: Option<ServerId>, server: ServerId) -> ServerId
    ensures { result.0 ≡ lesser (H.servers holders.now).chunks_held (option_map (λ s. s.0) best) server.0 }
{
    match best {
        Some(other) if holders.chunks(other) <= holders.chunks(server) => other,
        _ => server,
    }
}

//! What is kept of what was seen.

ghost use Rattle.std.specs.Prelude.{◌≡◌, IfOk, map};
ghost use Rattle.cell_world.specs.Kept.{blank_seen, seen_of};

use crate::extent::Extent;
use gfs_types::ids::{Handle, Serial, Version};
use gfs_types::no_memory::NoMemory;
use protocol::seen::Seen;
use std::alloc::Global;

/// One thing that was seen, without the bytes of a mutation.
#[derive(Clone, Copy, Debug)]
pub enum Sighting {
    Numbered {
        handle: Handle,
        version: Version,
        serial: Serial,
        extent: Extent,
    },
    BecameSettled {
        handle: Handle,
        version: Version,
        serial: Serial,
    },
    CopyStarted {
        handle: Handle,
        copy: Handle,
    },
}

impl Sighting {
    fn of(seen: &Seen) -> Sighting
        ensures { seen_of result ≡ blank_seen seen.now }
    {
        match seen {
            Seen::Numbered {
                handle,
                version,
                serial,
                mutation,
                ..
            } => Sighting::Numbered {
                handle: *handle,
                version: *version,
                serial: *serial,
                extent: Extent::of(mutation),
            },
            Seen::BecameSettled {
                handle,
                version,
                serial,
            } => Sighting::BecameSettled {
                handle: *handle,
                version: *version,
                serial: *serial,
            },
            Seen::CopyStarted { handle, copy } => Sighting::CopyStarted {
                handle: *handle,
                copy: *copy,
            },
        }
    }
}

/// What is kept of all that was seen.
pub(crate) fn sightings(alloc: Global, all: &[Seen]) -> Result<Vec<Sighting>, NoMemory>
    ensures { IfOk result (λ kept. map seen_of kept.items ≡ map blank_seen all.now) }
{
    let mut kept = Vec::new(alloc);
    for seen in all {
        kept.push(Sighting::of(seen))?;
    }
    Ok(kept)
}

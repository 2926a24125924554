//! Mutations, and what they change.

ghost use Rattle.std.specs.Prelude.{◌≡◌, ◌<◌, ◌^◌, IfOk};
ghost use Rattle.gfs_types.specs.Mutations.{start_of, end_of};
ghost use Rattle.protocol.specs.ServerWrites.{change_of, stored_as};

use gfs_types::ids::{Handle, Serial};
use gfs_types::mutation::Mutation;
use gfs_types::no_memory::NoMemory;
use messages::message::Change;
use replica_store::change::StoreChange;

pub(crate) fn start_of(mutation: &Mutation) -> u64
    ensures { result ≡ start_of mutation.now }
{
    match mutation {
        Mutation::Write(offset, _) | Mutation::Append(offset, _) | Mutation::Pad(offset, _) =>
            *offset,
    }
}

// The first place past it.
pub(crate) fn end_of(mutation: &Mutation) -> u64
    requires { end_of mutation.now < 2 ^ 64 }
    ensures { result ≡ end_of mutation.now }
{
    match mutation {
        Mutation::Write(offset, bytes) | Mutation::Append(offset, bytes) => {
            *offset + bytes.len() as u64
        }
        Mutation::Pad(_, end) => *end,
    }
}

pub(crate) fn change_of(mutation: &Mutation) -> Change
    ensures { result ≡ change_of mutation.now }
{
    match mutation {
        Mutation::Write(offset, _) => Change::Write(*offset),
        Mutation::Append(offset, _) => Change::Append(*offset),
        Mutation::Pad(offset, end) => Change::Pad(*offset, *end),
    }
}

pub(crate) fn stored_as(
    handle: Handle,
    serial: Serial,
    mutation: &Mutation,
) -> Result<StoreChange, NoMemory>
    ensures { IfOk result (λ x. x ≡ stored_as handle.0 serial.0 mutation.now) }
{
    match mutation {
        Mutation::Write(offset, bytes) | Mutation::Append(offset, bytes) => {
            Ok(StoreChange::Write {
                handle,
                serial,
                offset: *offset,
                bytes: bytes.clone()?,
            })
        }
        Mutation::Pad(offset, end) => Ok(StoreChange::Zero {
            handle,
            serial,
            offset: *offset,
            count: end.saturating_sub(*offset),
        }),
    }
}

//! What a mutation writes.

ghost use Rattle.std.specs.Prelude.{◌≡◌, IfOk};
ghost use Rattle.store_changes.specs.Mutations.{bytes_of as bytes_value, place_of as place_value};

use bytes::Bytes;
use gfs_types::mutation::Mutation;
use std::alloc::{AllocError, Global};

/// Where the bytes of a mutation go.
pub fn place_of(mutation: &Mutation) -> u64
    ensures { result ≡ place_value mutation.now }
{
    match mutation {
        Mutation::Write(offset, _) => *offset,
        Mutation::Append(offset, _) => *offset,
        Mutation::Pad(offset, _) => *offset,
    }
}

/// The bytes that a mutation puts there: a pad has zeros up to its end.
pub fn bytes_of(alloc: Global, mutation: &Mutation) -> Result<Bytes, AllocError>
    ensures { IfOk result (λ bytes. bytes ≡ bytes_value mutation.now) }
{
    match mutation {
        Mutation::Write(_, bytes) => Ok(bytes.clone()?),
        Mutation::Append(_, bytes) => Ok(bytes.clone()?),
        Mutation::Pad(offset, end) => {
            let zeros = vec![in alloc; 0; end.saturating_sub(*offset) as usize]?;
            Ok(Bytes::from_vec(zeros)?)
        }
    }
}

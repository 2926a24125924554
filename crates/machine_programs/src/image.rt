//! The bytes of a chunk after a list of mutations (section 2.7.1 of the Google File System paper).

ghost use Rattle.std.specs.Prelude.{◌≡◌, ◌<◌, ◌^◌, All, IfOk, IsTrue};
ghost use Rattle.gfs_types.specs.Image as spec;
ghost use Rattle.gfs_types.specs.Mutations as change;

use gfs_types::mutation::Mutation;
use std::alloc::{AllocError, Global};

/// The first place of a mutation.
pub fn start_of(mutation: &Mutation) -> u64
    ensures { result ≡ change.start_of mutation.now }
{
    match mutation {
        Mutation::Write(offset, _) | Mutation::Append(offset, _) | Mutation::Pad(offset, _) =>
            *offset,
    }
}

/// The first place past a mutation.
pub fn end_of(mutation: &Mutation) -> u64
    requires { change.end_of mutation.now < 2 ^ 64 }
    ensures { result ≡ change.end_of mutation.now }
{
    match mutation {
        Mutation::Write(offset, bytes) | Mutation::Append(offset, bytes) => *offset
            + bytes.len() as u64,
        Mutation::Pad(_, end) => *end,
    }
}

/// The greatest end of the mutations, and 0 where there is none.
pub fn length(mutations: &[Mutation]) -> u64
    requires { All (λ m. change.end_of m < 2 ^ 64) mutations.now }
    ensures { result ≡ spec.image_length mutations.now }
{
    let mut greatest = 0;
    for mutation in mutations {
        greatest = greatest.max(end_of(mutation));
    }
    greatest
}

/// Whether a mutation changes the byte at a place.
pub fn covers(place: u64, mutation: &Mutation) -> bool
    requires { change.end_of mutation.now < 2 ^ 64 }
    ensures { result ≡ change.covers place mutation.now }
{
    start_of(mutation) <= place && place < end_of(mutation)
}

/// The byte at a place: that of the last mutation that covers it, and 0 where none does.
pub fn byte_at(mutations: &[Mutation], place: u64) -> u8
    requires { All (λ m. change.end_of m < 2 ^ 64) mutations.now }
    ensures { result ≡ spec.byte_at mutations.now place }
{
    let mut last = None;
    for mutation in mutations {
        if covers(place, mutation) {
            last = Some(byte_of(place, mutation));
        }
    }
    last.unwrap_or(0)
}

/// What a mutation writes at a place that it covers.
fn byte_of(place: u64, mutation: &Mutation) -> u8
    requires size { change.end_of mutation.now < 2 ^ 64 }
    requires covered { IsTrue (change.covers place mutation.now) }
    ensures { result ≡ change.byte_of place mutation.now }
{
    match mutation {
        Mutation::Write(offset, bytes) | Mutation::Append(offset, bytes) => bytes[(place
            - *offset) as usize],
        Mutation::Pad(_, _) => 0,
    }
}

/// The bytes of a chunk after the mutations, in order.
pub fn image(alloc: Global, mutations: &[Mutation]) -> Result<Vec<u8>, AllocError>
    requires { All (λ m. change.end_of m < 2 ^ 64) mutations.now }
    ensures { IfOk result (λ bytes. bytes.items ≡ spec.image mutations.now) }
{
    let mut bytes = Vec::new(alloc);
    for place in 0..length(mutations) {
        bytes.push(byte_at(mutations, place))?;
    }
    Ok(bytes)
}

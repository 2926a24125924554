//! The parts of a range of a file's bytes, one in each chunk that it touches (section 3.1). Sizes, places and counts are in bytes.

ghost use Rattle.std.specs.Prelude.{◌≡◌, ◌<◌, ◌+◌, ◌^◌, IfOk, length};
ghost use Rattle.relaxed_file.specs.Parts.{part_start, part_end, part_length, has_part, part_bytes};
ghost use Rattle.protocol.specs.Client.{place_in_file};

use bytes::Bytes;
use gfs_types::no_memory::NoMemory;

/// Where in the chunk at an index the part begins, of a range that begins at `offset`.
pub fn part_start(chunk: u64, offset: u64, index: u64) -> u64
    ensures { result ≡ part_start chunk offset index }
{
    offset.saturating_sub(index.saturating_mul(chunk))
}

/// The first place of the chunk past the part.
pub fn part_end(chunk: u64, offset: u64, count: u64, index: u64) -> u64
    requires { offset + count < 2 ^ 64 }
    ensures { result ≡ part_end chunk offset count index }
{
    (offset + count)
        .saturating_sub(index.saturating_mul(chunk))
        .min(chunk)
}

/// How long the part is.
pub fn part_length(chunk: u64, offset: u64, count: u64, index: u64) -> u64
    requires { offset + count < 2 ^ 64 }
    ensures { result ≡ part_length chunk offset count index }
{
    part_end(chunk, offset, count, index).saturating_sub(part_start(chunk, offset, index))
}

/// Whether any byte of the range lies in the chunk.
pub fn has_part(chunk: u64, offset: u64, count: u64, index: u64) -> bool
    requires { offset + count < 2 ^ 64 }
    ensures { result ≡ has_part chunk offset count index }
{
    part_start(chunk, offset, index) < part_end(chunk, offset, count, index)
}

/// The part of a write's bytes, which shares their memory.
pub fn part_bytes(chunk: u64, offset: u64, bytes: &Bytes, index: u64) -> Result<Bytes, NoMemory>
    requires { offset + length bytes.now < 2 ^ 64 }
    ensures { IfOk result (λ part. part ≡ part_bytes chunk offset bytes.now index) }
{
    let count = part_length(chunk, offset, bytes.len() as u64, index);
    if count == 0 {
        return Ok(Bytes::new());
    }
    let from = index.saturating_mul(chunk).saturating_sub(offset);
    Ok(bytes.slice(from as usize..(from + count) as usize)?)
}

/// The place in a file of a place in its chunk at an index: `u64::MAX` where that is past it.
pub fn place_in_file(chunk: u64, index: u64, place: u64) -> u64
    ensures { result ≡ place_in_file chunk index place }
{
    index.saturating_mul(chunk).saturating_add(place)
}

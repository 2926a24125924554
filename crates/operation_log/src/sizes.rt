//! How much room records take. What would pass 64 bits counts as the greatest number there is, and fits nowhere.

ghost use Rattle.std.specs.Prelude.{◌≡◌, ◌+◌, ◌*◌, ◌-◌, ◌^◌, ◌<◌, ◌≤◌, min, length, nat_le, is_some, IfSome};
ghost use Rattle.protocol.specs.LogSizes.{payload_size, shape_size, area_size};

use gfs_types::lists::{HandleList, ServerList, Text};
use gfs_types::shape::Shape;
use log_records::record::Record;

// A tag and fields of so many bytes, and a text.
fn with_text(fixed: u64, text: &Text) -> u64
    ensures { result ≡ min (fixed + length text.now) (2 ^ 64 - 1) }
{
    fixed.saturating_add(text.as_str().len() as u64)
}

fn with_texts(fixed: u64, from: &Text, to: &Text) -> u64
    ensures { result ≡ min (fixed + length from.now + length to.now) (2 ^ 64 - 1) }
{
    with_text(fixed, from).saturating_add(to.as_str().len() as u64)
}

fn with_members(fixed: u64, members: &ServerList) -> u64
    ensures { result ≡ min (fixed + 2 * length members.now) (2 ^ 64 - 1) }
{
    (members.len() as u64)
        .saturating_mul(2)
        .saturating_add(fixed)
}

fn with_handles(fixed: u64, text: &Text, handles: &HandleList) -> u64
    ensures { result ≡ min (fixed + length text.now + 8 * length handles.now) (2 ^ 64 - 1) }
{
    with_text(fixed, text).saturating_add((handles.len() as u64).saturating_mul(8))
}

// A shape's fields, where there is one.
fn shape_size(shape: Option<Shape>) -> u64
    ensures size { result ≡ shape_size shape }
    ensures small { result ≤ 5 }
{
    match shape {
        None => 0,
        Some(_) => 5,
    }
}

/// The bytes of a record's payload.
pub fn payload_size(entry: &Record) -> u64
    ensures { result ≡ min (payload_size entry.now) (2 ^ 64 - 1) }
{
    match entry {
        Record::Epoch { .. } | Record::Expired { .. } => 9,
        Record::Mkdir { path, .. } | Record::Rmdir { path, .. } => with_text(19, path),
        Record::Create { shape, path, .. } => with_text(27 + shape_size(*shape), path),
        Record::Delete { path, .. } => with_text(27, path),
        Record::Rename { from, to, .. } | Record::Snapshot { from, to, .. } => {
            with_texts(21, from, to)
        }
        Record::Refused { .. } | Record::ClientItem { .. } => 18,
        Record::AddChunk { .. } | Record::Issue { .. } => 17,
        Record::Grant { members, .. } => with_members(20, members),
        Record::CopyStart { .. } => 37,
        Record::Counters { .. } => 25,
        Record::DirItem { path } => with_text(3, path),
        Record::FileItem {
            path,
            shape,
            handles,
            ..
        } => with_handles(15 + shape_size(*shape), path, handles),
        Record::ChunkItem { members, .. } => with_members(28, members),
    }
}

/// The bytes of one of the disk's two areas.
pub fn area_size(log_bytes: u64) -> u64
    ensures size { result ≡ area_size log_bytes }
    ensures small { result < 2 ^ 63 }
{
    log_bytes.saturating_sub(16) / 2 / 16 * 16
}

/// The bytes of an area that are used once a record stands there too, with so many around it; None where that, with a closed
/// gate behind it, passes the area.
pub fn used_with(log_bytes: u64, used: u64, around: u64, entry: &Record) -> Option<u64>
    ensures room { is_some result ≡ nat_le (used + (around + payload_size entry.now) + 1) (area_size log_bytes) }
    ensures used { IfSome result (λ n. n ≡ used + (around + payload_size entry.now)) }
    ensures small { IfSome result (λ n. n < 2 ^ 63) }
{
    let area = area_size(log_bytes);
    let more = around.saturating_add(payload_size(entry));
    let after = used.saturating_add(more);
    if after < area { Some(after) } else { None }
}

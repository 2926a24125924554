//! The change that stands in a redo area, from its bytes.

ghost use Rattle.std.specs.Prelude.{◌≡◌, ◌≤◌, ◌<◌, ◌+◌, ◌^◌, length, take, IfOk};
ghost use Rattle.std.specs.Int.{w64, from_le_bytes};
ghost use Rattle.std.specs.Option.{option_map};
ghost use Rattle.disk_redo.specs.Changes.{all_outside, lies_outside};
ghost use Rattle.disk_redo.specs.Redo.{length_in, placed, ranges_in};
ghost use Rattle.disk_redo.specs.Opening.{first_in};

use crate::{RedoArea, RedoRange};
use bytes::Bytes;
use std::alloc::{AllocError, Global};

// The place of the first range.
fn place_at(bytes: &[u8]) -> usize
    requires { 12 ≤ length bytes.now }
    ensures { result ≡ from_le_bytes w64 (take 8 bytes.now) }
{
    usize::from_le_bytes([
        bytes[0], bytes[1], bytes[2], bytes[3], bytes[4], bytes[5], bytes[6], bytes[7],
    ])
}

// The length of the first range.
fn length_at(bytes: &[u8]) -> usize
    requires { 12 ≤ length bytes.now }
    ensures value { result ≡ length_in bytes.now }
    ensures range { result < 2 ^ 32 }
{
    u32::from_le_bytes([bytes[8], bytes[9], bytes[10], bytes[11]]) as usize
}

// The first range and what comes after it, where it is there whole.
fn first_range(bytes: &Bytes) -> Result<Option<(RedoRange, Bytes)>, AllocError>
    ensures { IfOk result (λ found. found ≡ first_in bytes.now) }
{
    let all = bytes.as_slice();
    if all.len() < 12 {
        return Ok(None);
    }
    let count = length_at(all);
    if all.len() < 12 + count {
        return Ok(None);
    }
    let range = RedoRange {
        place: place_at(all),
        bytes: bytes.slice(12..12 + count)?,
    };
    Ok(Some((range, bytes.slice(12 + count..)?)))
}

// So many ranges, where the bytes begin with them.
pub fn parse(alloc: Global, count: u16, bytes: Bytes) -> Result<Option<Vec<RedoRange>>, AllocError>
    ensures { IfOk result (λ found. option_map (λ v. v.items) found ≡ ranges_in count bytes) }
{
    let mut found = Vec::new(alloc);
    let mut rest = bytes;
    for _ in 0..count {
        match first_range(&rest)? {
            Some((range, after)) => {
                found.push(range)?;
                rest = after;
            }
            None => return Ok(None),
        }
    }
    Ok(Some(found))
}

fn is_placed(area: RedoArea, size: usize, range: &RedoRange) -> bool
    requires { area.place + area.size < 2 ^ 32 }
    ensures { result ≡ lies_outside area size range.now }
{
    let Some(end) = range.place.checked_add(range.bytes.len()) else {
        return false;
    };
    end <= size
        && (end <= area.place || area.place + area.size <= range.place)
        && area.first <= range.place
}

fn are_placed(area: RedoArea, size: usize, ranges: &[RedoRange]) -> bool
    requires { area.place + area.size < 2 ^ 32 }
    ensures { result ≡ all_outside area size ranges.now }
{
    for range in ranges {
        if !is_placed(area, size, range) {
            return false;
        }
    }
    true
}

// The ranges, where they lie on a disk of so many bytes, outside of the area and not before the first place of a change.
pub fn keep_placed(
    area: RedoArea,
    size: usize,
    found: Option<Vec<RedoRange>>,
) -> Option<Vec<RedoRange>>
    requires { area.place + area.size < 2 ^ 32 }
    ensures { option_map (λ v. v.items) result ≡ placed area size (option_map (λ v. v.items) found) }
{
    let ranges = found?;
    if are_placed(area, size, &ranges) {
        Some(ranges)
    } else {
        None
    }
}

//! Files that were deleted long ago.

ghost use Rattle.std.specs.Prelude.{◌≡◌, ◌+◌, ◌-◌, ◌*◌, ◌≤◌, ◌^◌, map, take, IfOk, MatchOption};
ghost use Rattle.std.specs.Str.{byte};
ghost use Rattle.gfs_types.specs.Paths.{trash};
ghost use Rattle.stale_collect.specs.Expiry.{before_none, expired_files, is_kept_long, number_from, old_at};

use gfs_types::ids::{FileId, Moment};
use gfs_types::no_memory::NoMemory;
use gfs_types::path::{Path, PathFault};
use namespace::name_kind::NameKind;
use namespace::node::{NameNode, Namespace};
use path_trie::child::Child;
use std::alloc::{Allocator, Global};

/// The hidden files that were kept for `keep_ms` milliseconds, in the order of their names, which is that of their moments, up to
/// the first that stays. At NoMemory nothing has changed. Goes over all names right below `/.gone`, and over no others.
pub fn expired<A: Allocator + Clone>(
    alloc: Global,
    names: &Namespace<A>,
    now: Moment,
    keep_ms: u64,
) -> Result<Vec<FileId>, NoMemory>
    ensures { IfOk result (λ files. files.items ≡ expired_files names.now now.0 keep_ms) }
{
    let trash = trash(alloc)?;
    let children = names.children(alloc, &trash)?;
    old_files(alloc, &children, now, keep_ms)
}

fn trash(alloc: Global) -> Result<Path, NoMemory>
    ensures { IfOk result (λ path. path ≡ trash) }
{
    Path::parse(alloc, "/.gone").map_err(|_| NoMemory)
}

fn old_files(
    alloc: Global,
    children: &[Child<'_, NameNode>],
    now: Moment,
    keep_ms: u64,
) -> Result<Vec<FileId>, NoMemory>
    ensures { IfOk result (λ files. files.items ≡ before_none (map (λ child. old_at now.0 keep_ms child.0 child.1) children.now)) }
{
    let mut files = Vec::new(alloc);
    for child in children {
        let Some(file) = old_file(child, now, keep_ms) else {
            break;
        };
        files.push(file)?;
    }
    Ok(files)
}

fn old_file(child: &Child<'_, NameNode>, now: Moment, keep_ms: u64) -> Option<FileId>
    ensures { result ≡ old_at now.0 keep_ms child.now.0 child.now.1 }
{
    match child.value().kind() {
        NameKind::File(file) if is_old(child.name(), now, keep_ms) => Some(file),
        _ => None,
    }
}

// Whether the moment in a hidden name is long enough ago.
fn is_old(part: &str, now: Moment, keep_ms: u64) -> bool
    ensures { result ≡ is_kept_long now.0 keep_ms (number_from 0 (take 20 part.now)) }
{
    let digits = part.as_bytes();
    let Some(moment) = number_in(&digits[..digits.len().min(20)]) else {
        return false;
    };
    moment <= now.0 && keep_ms <= now.0 - moment
}

// The number that digits write, where a `u64` holds it.
fn number_in(digits: &[u8]) -> Option<u64>
    ensures { MatchOption result (2 ^ 64 ≤ number_from 0 digits.now) (λ number. number ≡ number_from 0 digits.now) }
{
    let mut number: u64 = 0;
    for digit in digits {
        let Some(more) = with_digit(number, *digit) else {
            return None;
        };
        number = more;
    }
    Some(number)
}

// A number with one more digit, where a `u64` holds it.
fn with_digit(number: u64, digit: u8) -> Option<u64>
    ensures { MatchOption result (2 ^ 64 ≤ number * 10 + (digit - byte "0")) (λ more. more ≡ number * 10 + (digit - byte "0")) }
{
    let last = u64::from(digit.saturating_sub(b'0'));
    if number > (u64::MAX - last) / 10 {
        None
    } else {
        Some(number * 10 + last)
    }
}

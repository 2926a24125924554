//! Attempts that may still be placed.

ghost use Rattle.std.specs.Prelude.{◌≡◌, IfOk, filter};
ghost use Rattle.std.specs.List.{list_any};
ghost use Rattle.protocol.specs.ClientAttempts.{is_live_at};
ghost use Rattle.protocol.specs.ClientTakes.{is_kept_beside};

use client_state::call::{LiveAttempt, ToldChunk};
use gfs_types::lists::Sequence;
use gfs_types::no_memory::NoMemory;
use std::alloc::Global;

/// Whether any of these attempts may still be placed at a moment, in milliseconds.
pub fn is_any_live(live: &[LiveAttempt], now: u64) -> bool
    ensures { result ≡ list_any (is_live_at now) live.now }
{
    live.iter().any(|attempt| now < attempt.until.0)
}

/// The attempts that are still live once the primary of this chunk has given an answer other than a want of a lease or of
/// a replica: those at other indexes, and those under later versions.
pub fn less_live(
    alloc: Global,
    live: &[LiveAttempt],
    chunk: ToldChunk,
) -> Result<Sequence<LiveAttempt>, NoMemory>
    ensures { IfOk result (λ left. left ≡ filter (is_kept_beside chunk) live.now) }
{
    let mut left = Sequence::empty(alloc);
    for attempt in live {
        if !(attempt.index == chunk.index && attempt.version <= chunk.round) {
            left.push(*attempt)?;
        }
    }
    Ok(left)
}

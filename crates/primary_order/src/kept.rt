//! Each client's last attempt under the lease.

ghost use Rattle.std.specs.Prelude.{◌≡◌, IsSome};
ghost use Rattle.std.specs.FinMap as map;
ghost use Rattle.primary_order.specs.PrimaryOrder.{answer_by, restored, with_standing};

use crate::answer::{Accept, Settled};
use gfs_types::ids::ClientId;
use gfs_types::refusal::Refusal;
use ordered_map::number_map::NumberMap;

/// What became of an attempt that the primary took.
#[derive(Clone, Copy, PartialEq, Eq)]
pub enum Standing {
    IsPending,
    /// Settled at a place of the chunk, or by a pad.
    IsSettled(Option<u64>),
    IsRefused(Refusal),
}

/// A client's last attempt.
#[derive(Clone, Copy, PartialEq, Eq)]
pub struct Kept {
    pub seq: u64,
    pub standing: Standing,
}

pub(crate) fn answer(client: ClientId, seq: u64, standing: Standing) -> Accept
    ensures { result ≡ answer_by client seq standing }
{
    match standing {
        Standing::IsPending => Accept::Pending,
        Standing::IsSettled(place) => Accept::Again(Settled { client, seq, place }),
        Standing::IsRefused(refusal) => Accept::Refused(refusal),
    }
}

// Takes no memory.
pub(crate) fn set_standing(kept: &mut NumberMap<Kept>, client: u64, seq: u64, standing: Standing)
    ensures { kept.new ≡ with_standing kept.old client seq standing }
{
    let Some(last) = kept.get(client) else {
        return;
    };
    if last.seq != seq {
        return;
    }
    if let Some(last) = kept.get_mut(client) {
        last.standing = standing;
    }
}

// Puts back what was kept for a client that has an entry. Takes no memory.
pub(crate) fn restore(kept: &mut NumberMap<Kept>, client: u64, old: Option<Kept>)
    requires { IsSome (map.get kept.old client) }
    ensures { kept.new ≡ restored kept.old client old }
{
    let Some(old) = old else {
        kept.remove(client);
        return;
    };
    if let Some(last) = kept.get_mut(client) {
        *last = old;
    }
}

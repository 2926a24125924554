//! What an attempt is answered.

use gfs_types::ids::{ClientId, Serial};
use gfs_types::refusal::Refusal;

/// A mutation that all members have applied. It has no place where it was a pad.
#[derive(Clone, Copy, PartialEq, Eq)]
pub struct Settled {
    pub client: ClientId,
    pub seq: u64,
    pub place: Option<u64>,
}

/// What becomes of an attempt.
#[derive(Clone, Copy, PartialEq, Eq)]
pub enum Accept {
    /// It got this serial and is to be applied and forwarded.
    New(Serial),
    /// A repeat of one that was settled.
    Again(Settled),
    /// A repeat of one that is not settled yet; or no serial is left.
    Pending,
    /// It was refused.
    Refused(Refusal),
}

//! A lease as its primary holds it.

ghost use Rattle.std.specs.Prelude.{◌≡◌, ◌+◌, nat_lt};
ghost use Rattle.leases.specs.LeaseHeld.{at_moment, counts, after_call};
ghost use Rattle.leases.specs.LeaseHeld.HeldCall.{Ask, Extend, End};

use gfs_types::ids::{Moment, Version};
use gfs_types::lists::ServerList;
use std::marker::Model;

/// A lease that was granted. It counts only before its end less the clock bound, by the greatest moment that it was asked at, and
/// once it does not count it never counts again.
#[derive(Drop)]
pub struct Held {
    version: Version,
    until: Moment,
    members: ServerList,
    skew_ms: u64,
    latest: u64,
}

impl Model for Held {
    ghost use Rattle.leases.specs.LeaseHeld.{HeldState};

    ghost Value = { HeldState };

    ghost view = { λ h. record {
      lease = record { version = h.version.0; until = h.until.0; members = h.members };
      skew = h.skew_ms;
      latest = h.latest;
    } };
}

impl Held {
    /// A lease of this version until that moment, with its members, the primary among them, and with the clock bound in milliseconds.
    /// Takes no memory.
    pub fn take(version: Version, until: Moment, members: ServerList, skew_ms: u64) -> Held
        ensures { result ≡ record { lease = record { version = version.0; until = until.0; members = members }; skew = skew_ms; latest = 0 } }
    {
        Held {
            version,
            until,
            members,
            skew_ms,
            latest: 0,
        }
    }

    /// The version that was granted.
    pub fn version(&self) -> Version
        ensures { result.0 ≡ self.now.lease.version }
    {
        self.version
    }

    /// The end that the master told, 0 once the lease was ended.
    pub fn until(&self) -> Moment
        ensures { result.0 ≡ self.now.lease.until }
    {
        self.until
    }

    /// The members, the primary among them.
    pub fn members(&self) -> &ServerList
        ensures { result.now ≡ self.now.lease.members }
    {
        &self.members
    }

    /// What [`Held::valid`] would say at that moment, which is not noted.
    pub fn would_count(&self, now: Moment) -> bool
        ensures { result ≡ counts (at_moment self.now now.0) }
    {
        is_within(self.latest.max(now.0), self.skew_ms, self.until.0)
    }

    /// Whether the lease counts at that moment. An earlier moment than the greatest so far counts as that one.
    pub fn valid(&mut self, now: Moment) -> bool
        ensures after { self.new ≡ after_call self.old (Ask now.0) }
        ensures value { result ≡ counts self.new }
    {
        self.latest = self.latest.max(now.0);
        is_within(self.latest, self.skew_ms, self.until.0)
    }

    /// Moves the end on. Nothing but the greatest moment changes where the lease does not count or the end is not later.
    pub fn extend(&mut self, until: Moment, now: Moment)
        ensures { self.new ≡ after_call self.old (Extend until.0 now.0) }
    {
        self.latest = self.latest.max(now.0);
        if is_within(self.latest, self.skew_ms, self.until.0) && self.until.0 < until.0 {
            self.until = until;
        }
    }

    /// Ends the lease: it counts no more.
    pub fn end(&mut self)
        ensures { self.new ≡ after_call self.old End }
    {
        self.until = Moment(0);
    }
}

// Whether a moment is before an end less the clock bound.
fn is_within(now: u64, skew_ms: u64, until: u64) -> bool
    ensures { result ≡ nat_lt (now + skew_ms) until }
{
    now < until.saturating_sub(skew_ms)
}

//! A lease with its order.

ghost use Rattle.std.specs.Prelude.{◌≡◌, false, IfOk, OnOk, OnErr};
ghost use Rattle.std.specs.Option.{option_map};
ghost use Rattle.std.specs.FinMap as map;
ghost use Rattle.leases.specs.LeaseHeld.{counts, after_call};
ghost use Rattle.leases.specs.LeaseHeld.HeldCall.{Extend, End};
ghost use Rattle.primary_order.specs.PrimaryOrder.{new_primary, known, denied, seen_at, place_of, accept_answer, accepted, IsNewAttempt, acknowledged, ack_answer, refused, extended, ended};
ghost use Rattle.primary_order.specs.SerialOrder.{attempted, attempt_of, known_as, order_of};

use crate::answer::{Accept, Settled};
use crate::kept::{Kept, Standing, answer, restore, set_standing};
use crate::waiting::{Members, Waiting, acknowledge};
use gfs_types::ids::{ClientId, DataId, MAX_COUNTER, Moment, Serial, ServerId};
use gfs_types::mutation::Mutation;
use gfs_types::no_memory::NoMemory;
use gfs_types::refusal::Refusal;
use leases::held::Held;
use ordered_map::number_map::NumberMap;
use std::alloc::Global;

/// A lease with the size of its chunk, the last serial, whether it numbered a mutation since the last report, each client's last
/// attempt, and the mutations that are not settled, by serial.
#[derive(Drop)]
pub struct Primary {
    chunk: u32,
    held: Held,
    serial: u64,
    was_used_since_report: bool,
    kept: NumberMap<Kept>,
    waiting: NumberMap<Waiting>,
}

impl Primary {
    /// The order of a lease that was just granted, with the bytes that its chunk has at most; serials count from 1. Takes no memory.
    pub fn new(alloc: Global, chunk: u32, held: Held) -> Primary
        ensures { result ≡ new_primary chunk held }
    {
        Primary {
            chunk,
            held,
            serial: 0,
            was_used_since_report: false,
            kept: NumberMap::new(alloc),
            waiting: NumberMap::new(alloc),
        }
    }

    /// The bytes that the chunk has at most, as its Grant told them.
    pub fn chunk(&self) -> u32
        ensures { result ≡ self.now.chunk }
    {
        self.chunk
    }

    /// The lease.
    pub fn held(&self) -> &Held
        ensures { result.now ≡ self.now.held }
    {
        &self.held
    }

    /// The last serial that was given, 0 where none was.
    pub fn serial(&self) -> Serial
        ensures { result.0 ≡ self.now.serial }
    {
        Serial(self.serial)
    }

    /// Whether a mutation was numbered since the last report.
    pub fn was_used_since_report(&self) -> bool
        ensures { result ≡ self.now.was_used_since_report }
    {
        self.was_used_since_report
    }

    /// What an attempt with this number is answered. None: the client has no number so great under this lease.
    /// Takes no memory.
    pub fn known(&self, client: ClientId, seq: u64) -> Option<Accept>
        ensures answer { result ≡ known self.now client seq }
        ensures attempt { result ≡ known_as client seq (attempted (order_of self.now) client seq) }
    {
        self.known_by_last(client, seq)
    }

    fn known_by_last(&self, client: ClientId, seq: u64) -> Option<Accept>
        ensures { result ≡ known self.now client seq }
    {
        let Some(last) = self.kept.get(client.0) else {
            return None;
        };
        if last.seq < seq {
            return None;
        }
        if last.seq == seq {
            return Some(answer(client, seq, last.standing));
        }
        Some(Accept::Refused(Refusal::OldRequest))
    }

    /// Keeps the refusal of a new number, which is new no more. Nothing changes where the number is not new, nor at an error.
    pub fn deny(&mut self, client: ClientId, seq: u64, refusal: Refusal) -> Result<(), NoMemory>
        ensures ok { OnOk result (self.new ≡ denied self.old client seq refusal) }
        ensures err { OnErr result (self.new ≡ self.old) }
    {
        if self.known_by_last(client, seq).is_some() {
            return Ok(());
        }
        let standing = Standing::IsRefused(refusal);
        let Ok(()) = self.kept.insert(client.0, Kept { seq, standing }) else {
            return Err(NoMemory);
        };
        Ok(())
    }

    /// Takes an attempt. Where the lease counts at that moment and the number is greater than the client's last one under this lease,
    /// it gets the next serial. Refused with NoLease where the lease does not count; else a known number is answered what
    /// [`Primary::known`] says, and Pending where the serials are used up. At an error nothing but the greatest moment changed.
    pub fn accept(
        &mut self,
        alloc: Global,
        client: ClientId,
        seq: u64,
        mutation: &Mutation,
        now: Moment,
    ) -> Result<Accept, NoMemory>
        ensures answer { IfOk result (λ answer. answer ≡ accept_answer (seen_at self.old now.0) client seq) }
        ensures ok { OnOk result (self.new ≡ accepted (seen_at self.old now.0) client seq (place_of mutation.now)) }
        ensures err { OnErr result (self.new ≡ seen_at self.old now.0) }
        ensures cause { OnErr result (IsNewAttempt (seen_at self.old now.0) client seq) }
    {
        if !self.held.valid(now) {
            return Ok(Accept::Refused(Refusal::NoLease));
        }
        if let Some(answer) = self.known_by_last(client, seq) {
            return Ok(answer);
        }
        if self.serial >= MAX_COUNTER {
            return Ok(Accept::Pending);
        }
        let Ok(members) = Members::of(alloc, self.held.members()) else {
            return Err(NoMemory);
        };
        let serial = self.serial + 1;
        let entry = Waiting::new(client, seq, members, place(mutation));
        let old = self.kept.get(client.0).copied();
        let standing = Standing::IsPending;
        let Ok(()) = self.kept.insert(client.0, Kept { seq, standing }) else {
            return Err(NoMemory);
        };
        let Ok(()) = self.waiting.insert(serial, entry) else {
            restore(&mut self.kept, client.0, old);
            return Err(NoMemory);
        };
        self.serial = serial;
        self.was_used_since_report = true;
        Ok(Accept::New(Serial(serial)))
    }

    /// A member has applied the mutation of that serial. Some: it was the last member, and the lease counts at that moment. Nothing but
    /// the greatest moment changes where the lease does not count or nothing waits under that serial. Takes no memory.
    pub fn ack(&mut self, server: ServerId, serial: Serial, now: Moment) -> Option<Settled>
        ensures answer { result ≡ ack_answer (seen_at self.old now.0) server.0 serial.0 }
        ensures after { self.new ≡ acknowledged (seen_at self.old now.0) server.0 serial.0 }
    {
        let counts = self.held.valid(now);
        if !counts {
            return None;
        }
        let Waiting {
            client,
            seq,
            members: _,
            place,
        } = acknowledge(&mut self.waiting, serial.0, server.0)?;
        set_standing(&mut self.kept, client.0, seq, Standing::IsSettled(place));
        Some(Settled { client, seq, place })
    }

    /// Whose attempt waits under that serial, if any. Takes no memory.
    pub fn attempt(&self, serial: Serial) -> Option<DataId>
        ensures { result ≡ option_map attempt_of (map.get self.now.waiting serial.0) }
    {
        let Some(entry) = self.waiting.get(serial.0) else {
            return None;
        };
        Some(DataId {
            client: entry.client,
            seq: entry.seq,
        })
    }

    /// A member refused the mutation of that serial: its attempt is answered so until it is settled. Nothing changes where nothing waits
    /// under that serial, or the client has a later attempt. Takes no memory.
    pub fn refuse(&mut self, serial: Serial, refusal: Refusal)
        ensures { self.new ≡ refused self.old serial.0 refusal }
    {
        let Some(entry) = self.waiting.get(serial.0) else {
            return;
        };
        set_standing(
            &mut self.kept,
            entry.client.0,
            entry.seq,
            Standing::IsRefused(refusal),
        );
    }

    /// Moves the lease's end on, as [`Held::extend`] does. Takes no memory.
    pub fn extend(&mut self, until: Moment, now: Moment)
        ensures { self.new ≡ extended self.old until.0 now.0 }
    {
        self.held.extend(until, now);
    }

    /// The lease was reported: it wants no more until it numbers another mutation. Takes no memory.
    pub fn reported(&mut self)
        ensures { self.new ≡ record self.old { was_used_since_report = false } }
    {
        self.was_used_since_report = false;
    }

    /// Ends the lease: from now on it does not count. Takes no memory.
    pub fn end(&mut self)
        ensures { self.new ≡ ended self.old }
    {
        self.held.end();
    }
}

fn place(mutation: &Mutation) -> Option<u64>
    ensures { result ≡ place_of mutation.now }
{
    match mutation {
        Mutation::Write(offset, _) => Some(*offset),
        Mutation::Append(offset, _) => Some(*offset),
        Mutation::Pad(_, _) => None,
    }
}

//! The leases that a server holds, each with its primary's order: what is done with one, and what becomes of all at a tick.

ghost use Rattle.std.specs.Prelude.{◌≡◌, ◌≤◌, ◌<◌, ◌+◌, true, Some, map, OnOk, IfOk};
ghost use Rattle.std.specs.Option.{option_copied, option_map};
ghost use Rattle.std.specs.FinMap as table;
ghost use Rattle.gfs_types.specs.Counters.{counter_limit};
ghost use Rattle.leases.specs.LeaseHeld.{counts_at, extended};
ghost use Rattle.primary_order.specs.PrimaryOrder.{place_of};
ghost use Rattle.primary_order.specs.SerialOrder.{SerialOrder, IsNew, new_order, attempted, denied, numbered, settled, acknowledged, refused_by, attempt_of, order_of};
ghost use Rattle.protocol.specs.Tables.{kept_where, map_values};
ghost use Rattle.protocol.specs.Sending.{serial_of};
ghost use Rattle.protocol.specs.ServerStep.{lease_line, asks_no_more};
ghost use Rattle.server_handlers.specs.Held.{counting_at};

use crate::lease_table::{
    LeaseTable, accept, acknowledge, begin, counted, counting, deny, end_at, extend, handles_of,
    refuse, reported_all,
};
use gfs_types::ids::{DataId, Handle, Moment, Serial, ServerId, Version};
use gfs_types::lists::ServerList;
use gfs_types::mutation::Mutation;
use gfs_types::no_memory::NoMemory;
use gfs_types::refusal::Refusal;
use leases::held::Held;
use messages::message_lists::LeaseList;
use primary_order::answer::Settled;
use primary_order::primary::Primary;
use std::alloc::Global;
use std::marker::Model;

/// The leases that a server holds, by handle, with the clock bound in milliseconds and the greatest moment that they were asked at.
#[derive(Drop)]
pub(crate) struct Leases {
    skew_ms: u64,
    latest: u64,
    table: LeaseTable,
}

impl Model for Leases {
    ghost use Rattle.std.specs.FinMap as map;
    ghost use Rattle.std.specs.Coded.{codes, coded_ℕ};
    ghost use Rattle.server_handlers.specs.Held.{HeldLeases, AreHeld, orders_of};

    ghost Value = { HeldLeases };

    ghost coded = { Prim.hlevel (codes, map.code, coded_ℕ) };

    ghost view = { λ l. record { skew = l.skew_ms; latest = l.latest; orders = orders_of l.table } };

    ghost invariant = { λ l. AreHeld l.skew_ms l.latest l.table };
}

impl Leases {
    /// No leases. Takes no memory.
    pub(crate) fn new(alloc: Global, skew_ms: u64) -> Leases
        ensures { result ≡ record { skew = skew_ms; latest = 0; orders = table.empty } }
    {
        Leases {
            skew_ms,
            latest: 0,
            table: LeaseTable::new(alloc),
        }
    }

    /// The lease of a chunk.
    pub(crate) fn get(&self, handle: Handle) -> Option<&Primary>
        ensures { option_map order_of (option_copied result) ≡ table.get self.now.orders handle.0 }
    {
        self.table.get(handle.0)
    }

    /// The lease of a chunk, where it is of that version and counts at that moment.
    pub(crate) fn counting(&self, handle: Handle, version: Version, now: Moment) -> Option<&Primary>
        requires { self.now.latest ≤ now.0 }
        ensures { option_map order_of (option_copied result) ≡ counting_at self.now.skew now.0 version.0 (table.get self.now.orders handle.0) }
    {
        counted(&self.table, handle, version, now)
    }

    /// A lease that was granted begins, with the bytes that its chunk has at most and serials from 1. An error leaves all as it was.
    pub(crate) fn begin(
        &mut self,
        alloc: Global,
        handle: Handle,
        version: Version,
        until: Moment,
        chunk: u32,
        members: ServerList,
    ) -> Result<(), NoMemory>
        ensures after { OnOk result (self.new.orders ≡ table.insert self.old.orders handle.0 (new_order chunk (record { version = version.0; until = until.0; members = members }))) }
        ensures same { (self.new.skew ≡ self.old.skew) × (self.new.latest ≡ self.old.latest) }
    {
        let held = Held::take(version, until, members, self.skew_ms);
        begin(&mut self.table, handle, Primary::new(alloc, chunk, held))
    }

    /// Keeps the refusal of a new attempt.
    pub(crate) fn deny(
        &mut self,
        handle: Handle,
        id: DataId,
        refusal: Refusal,
    ) -> Result<(), NoMemory>
        ensures after { OnOk result ((p : SerialOrder) → table.get self.old.orders handle.0 ≡ Some p → attempted p id.client id.seq ≡ IsNew → self.new.orders ≡ table.insert self.old.orders handle.0 (denied p id.client id.seq refusal)) }
        ensures same { (self.new.skew ≡ self.old.skew) × (self.new.latest ≡ self.old.latest) }
    {
        deny(&mut self.table, handle, id, refusal)
    }

    /// Takes an attempt at that moment: the next serial where the lease counts, the attempt is new, and a serial is left.
    pub(crate) fn accept(
        &mut self,
        alloc: Global,
        handle: Handle,
        id: DataId,
        mutation: &Mutation,
        now: Moment,
    ) -> Result<Option<Serial>, NoMemory>
        requires { self.old.latest ≤ now.0 }
        ensures after { OnOk result ((p : SerialOrder) → table.get self.old.orders handle.0 ≡ Some p → counts_at self.old.skew p.held now.0 ≡ true → attempted p id.client id.seq ≡ IsNew → p.serial < counter_limit → self.new.orders ≡ table.insert self.old.orders handle.0 (numbered p id.client id.seq (place_of mutation.now))) }
        ensures serial { IfOk result (λ serial. (p : SerialOrder) → table.get self.old.orders handle.0 ≡ Some p → counts_at self.old.skew p.held now.0 ≡ true → attempted p id.client id.seq ≡ IsNew → p.serial < counter_limit → serial ≡ Some (serial_of (p.serial + 1))) }
        ensures same { (self.new.skew ≡ self.old.skew) × (self.new.latest ≡ now.0) }
    {
        self.latest = now.0;
        accept(alloc, &mut self.table, handle, id, mutation, now)
    }

    /// A member acknowledged: the mutation that it settled at that moment, if any.
    pub(crate) fn acknowledge(
        &mut self,
        handle: Handle,
        server: ServerId,
        serial: Serial,
        now: Moment,
    ) -> Option<Settled>
        requires { self.old.latest ≤ now.0 }
        ensures after { (p : SerialOrder) → table.get self.old.orders handle.0 ≡ Some p → counts_at self.old.skew p.held now.0 ≡ true → self.new.orders ≡ table.insert self.old.orders handle.0 (acknowledged p server.0 serial.0) }
        ensures answer { (p : SerialOrder) → table.get self.old.orders handle.0 ≡ Some p → counts_at self.old.skew p.held now.0 ≡ true → result ≡ settled p server.0 serial.0 }
        ensures same { (self.new.skew ≡ self.old.skew) × (self.new.latest ≡ now.0) }
    {
        self.latest = now.0;
        acknowledge(&mut self.table, handle, server, serial, now)
    }

    /// A member refused: whose attempt it is.
    pub(crate) fn refuse(
        &mut self,
        handle: Handle,
        serial: Serial,
        refusal: Refusal,
    ) -> Option<DataId>
        ensures after { (p : SerialOrder) → table.get self.old.orders handle.0 ≡ Some p → self.new.orders ≡ table.insert self.old.orders handle.0 (refused_by p refusal (table.get p.waiting serial.0)) }
        ensures attempt { (p : SerialOrder) → table.get self.old.orders handle.0 ≡ Some p → result ≡ option_map attempt_of (table.get p.waiting serial.0) }
        ensures same { (self.new.skew ≡ self.old.skew) × (self.new.latest ≡ self.old.latest) }
    {
        refuse(&mut self.table, handle, serial, refusal)
    }

    /// Moves the end of a lease on, where it counts at that moment.
    pub(crate) fn extend(&mut self, handle: Handle, until: Moment, now: Moment)
        requires { self.old.latest ≤ now.0 }
        ensures after { (p : SerialOrder) → table.get self.old.orders handle.0 ≡ Some p → self.new.orders ≡ table.insert self.old.orders handle.0 (record p { held = extended self.old.skew p.held until.0 now.0 }) }
        ensures same { (self.new.skew ≡ self.old.skew) × (self.new.latest ≡ now.0) }
    {
        self.latest = now.0;
        extend(&mut self.table, handle, until, now);
    }

    /// Ends the lease of a chunk, and forgets it with its order.
    pub(crate) fn end(&mut self, handle: Handle)
        ensures { self.new ≡ record self.old { orders = table.remove self.old.orders handle.0 } }
    {
        end_at(&mut self.table, handle.0);
    }

    /// A tick: the leases that count at that moment, as they are reported; the others are forgotten, and those that stay want no more.
    pub(crate) fn report(&mut self, alloc: Global, now: Moment) -> Result<LeaseList, NoMemory>
        requires { self.old.latest ≤ now.0 }
        ensures lines { IfOk result (λ l. l ≡ map lease_line (table.entries (kept_where (λ e. counts_at self.old.skew e.1.held now.0) self.old.orders))) }
        ensures after { OnOk result (self.new.orders ≡ map_values asks_no_more (kept_where (λ e. counts_at self.old.skew e.1.held now.0) self.old.orders)) }
        ensures same { (self.new.skew ≡ self.old.skew) × (self.new.latest ≡ self.old.latest) }
    {
        let handles = handles_of(alloc, &self.table)?;
        let lines = counting(alloc, &self.table, now)?;
        reported_all(&mut self.table, handles.as_slice(), now);
        Ok(lines)
    }
}

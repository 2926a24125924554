//! The primaries of a server's chunks: what is done with one, and what becomes of all at a tick.

ghost use Rattle.std.specs.Prelude.{◌≡◌, Some, OnOk, OnErr, IfOk};
ghost use Rattle.std.specs.Option.{option_copied};
ghost use Rattle.std.specs.FinMap as table;
ghost use Rattle.primary_order.specs.declared.primary.Primary.{Primary as PrimaryValue};
ghost use Rattle.primary_order.specs.PrimaryOrder.{seen_at, place_of, accept_answer, accepted, denied, acknowledged, refused, extended};
ghost use Rattle.server_handlers.specs.Held.{changed_at, serial_in, serial_given, settled_at, attempt_at, counted_at, would_count, line_of, lines_of, asks_nothing};
ghost use Rattle.server_handlers.specs.Reported.{seen_all, seen_one};

use gfs_types::ids::{DataId, Handle, Moment, Serial, ServerId, Version};
use gfs_types::mutation::Mutation;
use gfs_types::no_memory::NoMemory;
use gfs_types::refusal::Refusal;
use messages::message::LeaseLine;
use messages::message_lists::LeaseList;
use ordered_map::OrderedMap;
use primary_order::answer::{Accept, Settled};
use primary_order::primary::Primary;
use std::alloc::Global;

/// The primaries, by handle.
pub(crate) type LeaseTable = OrderedMap<Primary>;

// The primary of a chunk, where its lease is of that version and counts at that moment.
pub(crate) fn counted(
    leases: &LeaseTable,
    handle: Handle,
    version: Version,
    now: Moment,
) -> Option<&Primary>
    ensures { option_copied result ≡ counted_at now.0 version.0 (table.get leases.now handle.0) }
{
    let primary = leases.get(handle.0)?;
    let held = primary.held();
    let counts = held.would_count(now);
    if held.version() == version && counts {
        Some(primary)
    } else {
        None
    }
}

pub(crate) fn begin(
    leases: &mut LeaseTable,
    handle: Handle,
    primary: Primary,
) -> Result<(), NoMemory>
    ensures ok { OnOk result (leases.new ≡ table.insert leases.old handle.0 primary) }
    ensures err { OnErr result (leases.new ≡ leases.old) }
{
    let Ok(()) = leases.insert(handle.0, primary) else {
        return Err(NoMemory);
    };
    Ok(())
}

pub(crate) fn deny(
    leases: &mut LeaseTable,
    handle: Handle,
    id: DataId,
    refusal: Refusal,
) -> Result<(), NoMemory>
    ensures ok { OnOk result (leases.new ≡ changed_at leases.old handle.0 (λ p. denied p id.client id.seq refusal)) }
    ensures err { OnErr result (leases.new ≡ changed_at leases.old handle.0 (λ p. p)) }
{
    match leases.get_mut(handle.0) {
        None => Ok(()),
        Some(primary) => primary.deny(id.client, id.seq, refusal),
    }
}

// The serial that the attempt got, if it got one.
pub(crate) fn accept(
    alloc: Global,
    leases: &mut LeaseTable,
    handle: Handle,
    id: DataId,
    mutation: &Mutation,
    now: Moment,
) -> Result<Option<Serial>, NoMemory>
    ensures ok { OnOk result (leases.new ≡ changed_at leases.old handle.0 (λ p. accepted (seen_at p now.0) id.client id.seq (place_of mutation.now))) }
    ensures err { OnErr result (leases.new ≡ changed_at leases.old handle.0 (λ p. seen_at p now.0)) }
    ensures serial { IfOk result (λ serial. serial ≡ serial_given now.0 id (table.get leases.old handle.0)) }
{
    match leases.get_mut(handle.0) {
        None => Ok(None),
        Some(primary) => accept_by(alloc, primary, id, mutation, now),
    }
}

fn accept_by(
    alloc: Global,
    primary: &mut Primary,
    id: DataId,
    mutation: &Mutation,
    now: Moment,
) -> Result<Option<Serial>, NoMemory>
    ensures ok { OnOk result (primary.new ≡ accepted (seen_at primary.old now.0) id.client id.seq (place_of mutation.now)) }
    ensures err { OnErr result (primary.new ≡ seen_at primary.old now.0) }
    ensures serial { IfOk result (λ serial. serial ≡ serial_in (accept_answer (seen_at primary.old now.0) id.client id.seq)) }
{
    let answer = primary.accept(alloc, id.client, id.seq, mutation, now)?;
    Ok(serial_in(answer))
}

fn serial_in(answer: Accept) -> Option<Serial>
    ensures { result ≡ serial_in answer }
{
    match answer {
        Accept::New(serial) => Some(serial),
        Accept::Again(_) => None,
        Accept::Pending => None,
        Accept::Refused(_) => None,
    }
}

// The mutation that was settled, if any.
pub(crate) fn acknowledge(
    leases: &mut LeaseTable,
    handle: Handle,
    server: ServerId,
    serial: Serial,
    now: Moment,
) -> Option<Settled>
    ensures after { leases.new ≡ changed_at leases.old handle.0 (λ p. acknowledged (seen_at p now.0) server.0 serial.0) }
    ensures answer { result ≡ settled_at now.0 server.0 serial.0 (table.get leases.old handle.0) }
{
    match leases.get_mut(handle.0) {
        None => None,
        Some(primary) => primary.ack(server, serial, now),
    }
}

// Whose attempt it is, if one waits.
pub(crate) fn refuse(
    leases: &mut LeaseTable,
    handle: Handle,
    serial: Serial,
    refusal: Refusal,
) -> Option<DataId>
    ensures after { leases.new ≡ changed_at leases.old handle.0 (λ p. refused p serial.0 refusal) }
    ensures attempt { result ≡ attempt_at serial.0 (table.get leases.old handle.0) }
{
    match leases.get_mut(handle.0) {
        None => None,
        Some(primary) => {
            let attempt = primary.attempt(serial);
            primary.refuse(serial, refusal);
            attempt
        }
    }
}

pub(crate) fn extend(leases: &mut LeaseTable, handle: Handle, until: Moment, now: Moment)
    ensures { leases.new ≡ changed_at leases.old handle.0 (λ p. extended p until.0 now.0) }
{
    if let Some(primary) = leases.get_mut(handle.0) {
        primary.extend(until, now);
    }
}

// Ends a lease, and forgets it with its order.
pub(crate) fn end_at(leases: &mut LeaseTable, handle: u64)
    ensures { leases.new ≡ table.remove leases.old handle }
{
    let Some(mut primary) = leases.remove(handle) else {
        return;
    };
    primary.end();
}

pub(crate) fn handles_of(alloc: Global, leases: &LeaseTable) -> Result<Vec<u64>, NoMemory>
    ensures { IfOk result (λ v. v.items ≡ table.keys leases.now) }
{
    let mut handles = Vec::new(alloc);
    for (handle, _) in leases.iter() {
        handles.push(*handle)?;
    }
    Ok(handles)
}

// The leases that count, in rising handle.
pub(crate) fn counting(
    alloc: Global,
    leases: &LeaseTable,
    now: Moment,
) -> Result<LeaseList, NoMemory>
    ensures { IfOk result (λ l. l ≡ lines_of now.0 leases.now) }
{
    let mut lines = Vec::new(alloc);
    for (handle, primary) in leases.iter() {
        if primary.held().would_count(now) {
            lines.push(line_of(*handle, primary))?;
        }
    }
    Ok(LeaseList::new(lines))
}

fn line_of(handle: u64, primary: &Primary) -> LeaseLine
    ensures { result ≡ line_of (handle, primary.now) }
{
    LeaseLine {
        handle: Handle(handle),
        version: primary.held().version(),
        was_used_since_report: primary.was_used_since_report(),
    }
}

// Leases that count ask for no more; others are forgotten.
pub(crate) fn reported_all(leases: &mut LeaseTable, handles: &[u64], now: Moment)
    ensures { leases.new ≡ seen_all now.0 leases.old handles.now }
{
    for handle in handles {
        reported_one(leases, *handle, now);
    }
}

fn reported_one(leases: &mut LeaseTable, handle: u64, now: Moment)
    ensures { leases.new ≡ seen_one now.0 leases.old handle (table.get leases.old handle) }
{
    let Some(primary) = leases.get(handle) else {
        return;
    };
    if primary.held().would_count(now) {
        ask_no_more(leases, handle);
    } else {
        end_at(leases, handle);
    }
}

fn ask_no_more(leases: &mut LeaseTable, handle: u64)
    ensures { (p : PrimaryValue) → table.get leases.old handle ≡ Some p → leases.new ≡ table.insert leases.old handle (asks_nothing p) }
{
    if let Some(primary) = leases.get_mut(handle) {
        primary.reported();
    }
}

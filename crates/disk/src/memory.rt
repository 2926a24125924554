//! A disk in memory.

ghost use Rattle.std.specs.Prelude.{◌≡◌, ◌≤◌, ◌+◌, length, take, drop, true, IfErr, IfOk, IsErrOf, IsOk, OnErr, OnOk};
ghost use Rattle.disk.specs.declared.device.DiskFault.TheVariants.{NoMemory};
ghost use Rattle.disk.specs.Bytes.{range_at};
ghost use Rattle.disk.specs.Device.{ChangesOnly, Follows, HasCause, Holds, NoMore, Only};
ghost use Rattle.disk.specs.Writes.{BeginsAnew, GoesOn, LeftBy, LeftSince, all_fit, begun_anew, bytes_before, filled, marked, moment_of, new_disk, settled, stopped, synced, syncs, unsynced, written};
ghost use Rattle.disk.specs.Laws.{left_now, left_only_now};
ghost use Rattle.disk.specs.Pages.{Keeps, all_taken, bytes_of};

use crate::device::{Disk, DiskFault};
use crate::pages::Pages;
use crate::past_write::PastWrite;
use gfs_types::ids::MAX_COUNTER;
use gfs_types::torn::Torn;
use std::alloc::{AllocError, Allocator, Global};
use std::marker::Model;

/// A disk in memory, which never fails. Until `forget_past` it keeps what each write wrote over, so that a stop is defined.
#[derive(Drop)]
pub struct MemDisk<A: Allocator = Global> {
    alloc: A,
    bytes: Pages<A>,
    writes: Vec<PastWrite<A>, A>,
    forgotten: u64,
}

impl<A: Allocator> Model for MemDisk<A> {
    ghost use Rattle.std.specs.Prelude.{◌≡◌, true};
    ghost use Rattle.disk.specs.Pages.{all_taken, bytes_of};
    ghost use Rattle.disk.specs.Writes.{DiskState, all_fit};

    ghost Value = { DiskState };

    ghost view = { λ m. record { bytes = bytes_of m.bytes; writes = m.writes.items; forgotten = m.forgotten } };

    ghost invariant = { λ m. (all_fit m.bytes.size m.writes.items ≡ true) × (all_taken m.bytes.pages m.writes.items ≡ true) };
}

impl<A: Allocator + Clone> MemDisk<A> {
    /// A disk of so many zero bytes, which a stop leaves.
    pub fn new(alloc: A, size: usize) -> Result<MemDisk<A>, AllocError>
        ensures { IfOk result (λ m. m ≡ new_disk size) }
    {
        let bytes = Pages::new(alloc.clone()?, size)?;
        let writes = Vec::new(alloc.clone()?);
        Ok(MemDisk {
            alloc,
            bytes,
            writes,
            forgotten: 0,
        })
    }

    pub(crate) fn fill(&self, at: usize, out: &mut [u8])
        requires { at + length out.old ≤ length self.now.bytes }
        ensures { out.new ≡ range_at self.now.bytes at (length out.old) }
    {
        self.bytes.read(at, out);
    }

    pub(crate) fn put(&mut self, at: usize, bytes: &[u8]) -> Result<(), AllocError>
        requires { at + length bytes.now ≤ length self.old.bytes }
        ensures ok { OnOk result (self.new ≡ written self.old at bytes.now) }
        ensures err { OnErr result (self.new ≡ self.old) }
    {
        let old = read_out(self.alloc.clone()?, &self.bytes, at, bytes.len())?;
        self.bytes.take(at, bytes.len())?;
        self.writes.push(PastWrite {
            at,
            old,
            synced: false,
        })?;
        self.bytes.put(at, bytes);
        Ok(())
    }

    // Settles what was written since the last sync, in place.
    pub(crate) fn settle(self, torn: Torn) -> MemDisk<A>
        ensures stopped { result ≡ stopped torn self }
        ensures lawful { LeftBy self result.bytes }
    {
        let MemDisk {
            alloc,
            mut bytes,
            mut writes,
            forgotten: _,
        } = self;
        settle_bytes(&mut bytes, &writes, torn);
        writes.clear();
        MemDisk {
            alloc,
            bytes,
            writes,
            forgotten: 0,
        }
    }

    pub(crate) fn mark(&mut self)
        ensures marked { self.new ≡ synced self.old }
        ensures crash { NoMore (LeftBy self.old) (LeftBy self.new) }
    {
        mark_last(&mut self.writes);
    }

    // Drops the writes up to the last sync.
    fn begin_anew(&mut self)
        ensures { self.new ≡ begun_anew self.old }
    {
        let moment = self.forgotten.saturating_add(count_syncs(&self.writes));
        // Past this count nothing more is forgotten, so that the moment never falls.
        if moment <= MAX_COUNTER {
            keep_unsynced(&mut self.writes);
            self.forgotten = moment;
        }
    }
}

impl<A: Allocator + Clone> Disk for MemDisk<A> {
    ghost seen = { λ m. m.bytes };

    ghost may_leave = { λ m c. LeftBy m c };

    ghost moment = { λ m. moment_of m };

    ghost left_since = { λ m t c. LeftSince m t c };

    ghost failed = { λ _. 0 };

    ghost counts_now = { λ m t c le now. left_now m t c le now };

    ghost only_now = { λ m c left. left_only_now m c left };

    fn size(&self) -> usize {
        self.bytes.len()
    }

    fn failures(&self) -> u64 {
        0
    }

    fn may_stop_as_read(&self) {
        let _size = self.bytes.len();
    }

    fn read(&mut self, at: usize, out: &mut [u8]) -> Result<(), DiskFault>
        requires { at + length out.old ≤ length self.old.bytes }
        ensures bytes { OnOk result (out.new ≡ take (length out.old) (drop at self.old.bytes)) }
        ensures done { IsOk result }
        ensures same { self.new ≡ self.old }
        ensures seen { self.new.bytes ≡ self.old.bytes }
        ensures crash { NoMore (LeftBy self.old) (LeftBy self.new) }
        ensures time { GoesOn self.old self.new }
        ensures cause { HasCause 0 0 result }
        ensures no_memory_needed { IsErrOf result NoMemory → ⊥ }
    {
        self.fill(at, out);
        Ok(())
    }

    fn write_at(&mut self, at: usize, bytes: &[u8]) -> Result<(), DiskFault>
        requires { at + length bytes.now ≤ length self.old.bytes }
        ensures done { OnOk result (self.new ≡ written self.old at bytes.now) }
        ensures same { OnErr result (self.new ≡ self.old) }
        ensures memory { IfErr result (λ fault. fault ≡ NoMemory) }
        ensures written { OnOk result (Holds self.old.bytes at bytes.now self.new.bytes) }
        ensures elsewhere { ChangesOnly at (length bytes.now) self.old.bytes self.new.bytes }
        ensures refused { IsErrOf result NoMemory → (self.new.bytes ≡ self.old.bytes) × NoMore (LeftBy self.old) (LeftBy self.new) }
        ensures crash { Follows (ChangesOnly at (length bytes.now)) (LeftBy self.old) (LeftBy self.new) }
        ensures time { GoesOn self.old self.new }
        ensures cause { HasCause 0 0 result }
    {
        match self.put(at, bytes) {
            Ok(()) => Ok(()),
            Err(_) => Err(DiskFault::NoMemory),
        }
    }

    fn sync(&mut self) -> Result<(), DiskFault>
        ensures done { IsOk result }
        ensures marked { self.new ≡ synced self.old }
        ensures durable { OnOk result (Only self.old.bytes (LeftBy self.new)) }
        ensures seen { self.new.bytes ≡ self.old.bytes }
        ensures crash { NoMore (LeftBy self.old) (LeftBy self.new) }
        ensures time { GoesOn self.old self.new }
        ensures cause { HasCause 0 0 result }
        ensures no_memory_needed { IsErrOf result NoMemory → ⊥ }
    {
        self.mark();
        Ok(())
    }

    fn forget_past(&mut self)
        ensures begun { self.new ≡ begun_anew self.old }
        ensures seen { self.new.bytes ≡ self.old.bytes }
        ensures crash { NoMore (LeftBy self.old) (LeftBy self.new) }
        ensures time { BeginsAnew self.old self.new }
    {
        self.begin_anew();
    }

    fn arm(&mut self, calls: u64)
        ensures same { self.new ≡ self.old }
        ensures seen { self.new.bytes ≡ self.old.bytes }
        ensures crash { NoMore (LeftBy self.old) (LeftBy self.new) }
        ensures time { GoesOn self.old self.new }
    {
        let _ = calls;
    }
}

fn read_out<A: Allocator + Clone>(
    alloc: A,
    bytes: &Pages<A>,
    at: usize,
    count: usize,
) -> Result<Vec<u8, A>, AllocError>
    requires { at + count ≤ bytes.now.size }
    ensures { IfOk result (λ v. v.items ≡ range_at (bytes_of bytes.now) at count) }
{
    let mut out = vec![in alloc; 0; count]?;
    bytes.read(at, &mut out);
    Ok(out)
}

// Marks the last write as synced.
fn mark_last<A: Allocator>(writes: &mut Vec<PastWrite<A>, A>)
    ensures { writes.new.items ≡ marked writes.old.items }
{
    let count = writes.len();
    if count > 0 {
        let last = &mut writes[count - 1];
        last.synced = true;
    }
}

// How often a sync came after a write.
fn count_syncs<A: Allocator>(writes: &[PastWrite<A>]) -> u64
    ensures { result ≡ syncs writes.now }
{
    let mut count = 0;
    for write in writes {
        if write.synced {
            count += 1;
        }
    }
    count
}

// Drops the writes before the last sync.
fn keep_unsynced<A: Allocator>(writes: &mut Vec<PastWrite<A>, A>)
    ensures { writes.new.items ≡ unsynced writes.old.items }
{
    let start = first_unsynced(writes);
    writes.rotate_left(start);
    writes.truncate(writes.len() - start);
}

// Settles what these writes left unsynced.
fn settle_bytes<A: Allocator + Clone>(bytes: &mut Pages<A>, writes: &[PastWrite<A>], torn: Torn)
    requires fit { all_fit bytes.old.size writes.now ≡ true }
    requires taken { all_taken bytes.old.pages writes.now ≡ true }
    ensures { bytes_of bytes.new ≡ settled torn (bytes_of bytes.old) writes.now }
{
    let start = first_unsynced(writes);
    match torn {
        Torn::New => {}
        Torn::Old => undo(bytes, &writes[start..]),
        Torn::Byte(byte) => {
            undo(bytes, &writes[start..]);
            fill_ranges(bytes, &writes[start..], byte);
        }
    }
}

// From where on no sync came after a write.
fn first_unsynced<A: Allocator>(writes: &[PastWrite<A>]) -> usize
    ensures writes { drop result writes.now ≡ unsynced writes.now }
    ensures within { result ≤ length writes.now }
{
    let mut start = 0;
    for i in 0..writes.len() {
        let write = &writes[i];
        if write.synced {
            start = i + 1;
        }
    }
    start
}

// Puts back what these writes wrote over, the last first.
fn undo<A: Allocator + Clone>(bytes: &mut Pages<A>, writes: &[PastWrite<A>])
    requires fit { all_fit bytes.old.size writes.now ≡ true }
    requires taken { all_taken bytes.old.pages writes.now ≡ true }
    ensures undone { bytes_of bytes.new ≡ bytes_before writes.now (bytes_of bytes.old) }
    ensures keeps { Keeps bytes.old bytes.new }
{
    let count = writes.len();
    for k in 0..count {
        let write = &writes[count - 1 - k];
        bytes.put(write.at, &write.old);
    }
}

// Fills the ranges of these writes.
fn fill_ranges<A: Allocator + Clone>(bytes: &mut Pages<A>, writes: &[PastWrite<A>], byte: u8)
    requires fit { all_fit bytes.old.size writes.now ≡ true }
    requires taken { all_taken bytes.old.pages writes.now ≡ true }
    ensures { bytes_of bytes.new ≡ filled byte writes.now (bytes_of bytes.old) }
{
    for write in writes {
        bytes.fill(write.at, write.old.len(), byte);
    }
}

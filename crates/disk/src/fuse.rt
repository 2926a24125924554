//! A disk that stops.

ghost use Rattle.std.specs.Prelude.{◌≡◌, ◌⊎◌, ◌≤◌, ◌+◌, length, take, drop, IsErrOf, None, OnErr, OnOk, Some};
ghost use Rattle.disk.specs.declared.device.DiskFault.TheVariants.{NoMemory};
ghost use Rattle.disk.specs.Device.{ChangesOnly, Follows, HasCause, Holds, NoMore, Only};
ghost use Rattle.disk.specs.Failing.{FailsWhere, is_burnt, spent};
ghost use Rattle.disk.specs.Laws.{left_now, left_only_now};
ghost use Rattle.disk.specs.Writes.{BeginsAnew, GoesOn, LeftBy, LeftSince, begun_anew, moment_of, stopped, synced, written};

use crate::device::{Disk, DiskFault};
use crate::memory::MemDisk;
use gfs_types::ids::MAX_COUNTER;
use gfs_types::torn::Torn;
use std::alloc::{Allocator, Global};
use std::marker::Model;

/// A disk in memory that lets so many calls pass once it is armed, and then fails each one, as before a stop.
///
/// A write that fails may still have reached the disk: its range counts as unsynced, with the bytes of the write as the new ones, unless memory for it was refused.
#[derive(Drop)]
pub struct FuseDisk<A: Allocator = Global> {
    disk: MemDisk<A>,
    left: Option<u64>,
    failures: u64,
}

impl<A: Allocator> Model for FuseDisk<A> {
    ghost use Rattle.disk.specs.Failing.{FuseState};

    ghost Value = { FuseState };

    ghost view = { λ f. record { disk = f.disk; left = f.left; failures = f.failures } };
}

impl<A: Allocator + Clone> FuseDisk<A> {
    /// A disk that isn't armed.
    pub fn new(disk: MemDisk<A>) -> FuseDisk<A>
        ensures { result ≡ record { disk = disk; left = None; failures = 0 } }
    {
        FuseDisk {
            disk,
            left: None,
            failures: 0,
        }
    }

    /// The disk after a stop, which has settled each range that was written since the last sync: with its old bytes, its new ones, or one byte everywhere. Takes no memory.
    pub fn stop(self, torn: Torn) -> MemDisk<A>
        ensures stopped { result ≡ stopped torn self.disk }
        ensures lawful { LeftBy self.disk result.bytes }
        ensures durable { Only result.bytes (LeftBy result) }
    {
        self.disk.settle(torn)
    }

    // Whether this call is to fail, which is counted.
    fn burns(&mut self) -> bool
        ensures burns { result ≡ is_burnt self.old }
        ensures spent { self.new ≡ spent self.old }
    {
        match self.left {
            None => false,
            // Past this count all calls pass, so that it never wraps.
            Some(0) if self.failures < MAX_COUNTER => {
                self.failures += 1;
                true
            }
            Some(calls) => {
                self.left = Some(calls.saturating_sub(1));
                false
            }
        }
    }
}

impl<A: Allocator + Clone> Disk for FuseDisk<A> {
    ghost seen = { λ f. f.disk.bytes };

    ghost may_leave = { λ f c. LeftBy f.disk c };

    ghost moment = { λ f. moment_of f.disk };

    ghost left_since = { λ f t c. LeftSince f.disk t c };

    ghost failed = { λ f. f.failures };

    ghost counts_now = { λ f t c le now. left_now f.disk t c le now };

    ghost only_now = { λ f c left. left_only_now f.disk c left };

    fn size(&self) -> usize {
        self.disk.size()
    }

    fn failures(&self) -> u64 {
        self.failures
    }

    fn may_stop_as_read(&self) {
        self.disk.may_stop_as_read();
    }

    fn read(&mut self, at: usize, out: &mut [u8]) -> Result<(), DiskFault>
        requires { at + length out.old ≤ length self.old.disk.bytes }
        ensures fuse { FailsWhere (is_burnt self.old) result }
        ensures spent { self.new ≡ spent self.old }
        ensures bytes { OnOk result (out.new ≡ take (length out.old) (drop at self.old.disk.bytes)) }
        ensures seen { self.new.disk.bytes ≡ self.old.disk.bytes }
        ensures crash { NoMore (LeftBy self.old.disk) (LeftBy self.new.disk) }
        ensures time { GoesOn self.old.disk self.new.disk }
        ensures cause { HasCause self.old.failures self.new.failures result }
        ensures no_memory_needed { IsErrOf result NoMemory → ⊥ }
    {
        let fails = self.burns();
        if fails {
            return Err(DiskFault::Device);
        }
        self.disk.read(at, out)
    }

    fn write_at(&mut self, at: usize, bytes: &[u8]) -> Result<(), DiskFault>
        requires { at + length bytes.now ≤ length self.old.disk.bytes }
        ensures fuse { FailsWhere (is_burnt self.old) result }
        ensures done { OnOk result (self.new ≡ record (spent self.old) { disk = written self.old.disk at bytes.now }) }
        ensures either { (self.new ≡ record (spent self.old) { disk = written self.old.disk at bytes.now }) ⊎ (self.new ≡ spent self.old) }
        ensures written { OnOk result (Holds self.old.disk.bytes at bytes.now self.new.disk.bytes) }
        ensures elsewhere { ChangesOnly at (length bytes.now) self.old.disk.bytes self.new.disk.bytes }
        ensures refused { IsErrOf result NoMemory → (self.new.disk.bytes ≡ self.old.disk.bytes) × NoMore (LeftBy self.old.disk) (LeftBy self.new.disk) }
        ensures same { IsErrOf result NoMemory → self.new ≡ spent self.old }
        ensures crash { Follows (ChangesOnly at (length bytes.now)) (LeftBy self.old.disk) (LeftBy self.new.disk) }
        ensures time { GoesOn self.old.disk self.new.disk }
        ensures cause { HasCause self.old.failures self.new.failures result }
    {
        let burnt = self.burns();
        let result = self.disk.write_at(at, bytes);
        if burnt {
            return Err(DiskFault::Device);
        }
        result
    }

    fn sync(&mut self) -> Result<(), DiskFault>
        ensures fuse { FailsWhere (is_burnt self.old) result }
        ensures failed { OnErr result (self.new ≡ spent self.old) }
        ensures done { OnOk result (self.new ≡ record (spent self.old) { disk = synced self.old.disk }) }
        ensures durable { OnOk result (Only self.old.disk.bytes (LeftBy self.new.disk)) }
        ensures seen { self.new.disk.bytes ≡ self.old.disk.bytes }
        ensures crash { NoMore (LeftBy self.old.disk) (LeftBy self.new.disk) }
        ensures time { GoesOn self.old.disk self.new.disk }
        ensures cause { HasCause self.old.failures self.new.failures result }
        ensures no_memory_needed { IsErrOf result NoMemory → ⊥ }
    {
        if self.burns() {
            return Err(DiskFault::Device);
        }
        self.disk.sync()
    }

    fn forget_past(&mut self)
        ensures begun { self.new ≡ record self.old { disk = begun_anew self.old.disk } }
        ensures seen { self.new.disk.bytes ≡ self.old.disk.bytes }
        ensures crash { NoMore (LeftBy self.old.disk) (LeftBy self.new.disk) }
        ensures time { BeginsAnew self.old.disk self.new.disk }
        ensures failed { self.new.failures ≡ self.old.failures }
    {
        self.disk.forget_past();
    }

    fn arm(&mut self, calls: u64)
        ensures armed { self.new ≡ record self.old { left = Some calls } }
        ensures seen { self.new.disk.bytes ≡ self.old.disk.bytes }
        ensures crash { NoMore (LeftBy self.old.disk) (LeftBy self.new.disk) }
        ensures time { GoesOn self.old.disk self.new.disk }
        ensures failed { self.new.failures ≡ self.old.failures }
    {
        self.left = Some(calls);
    }
}

//! A disk that fails once.

ghost use Rattle.std.specs.Prelude.{◌≡◌, ◌⊎◌, ◌≤◌, ◌+◌, length, take, drop, IsErrOf, OnErr, OnOk, Some};
ghost use Rattle.disk.specs.declared.device.DiskFault.TheVariants.{NoMemory};
ghost use Rattle.disk.specs.Device.{ChangesOnly, Follows, HasCause, Holds, NoMore, Only};
ghost use Rattle.disk.specs.Failing.{FailsWhere, count_failed, none_left, passed};
ghost use Rattle.disk.specs.Laws.{left_now, left_only_now};
ghost use Rattle.disk.specs.Writes.{BeginsAnew, GoesOn, LeftBy, LeftSince, begun_anew, moment_of, synced, written};

use crate::device::{Disk, DiskFault};
use crate::memory::MemDisk;
use std::alloc::{Allocator, Global};
use std::marker::Model;

/// A disk in memory that lets so many calls of `read`, `write_at` and `sync` pass, fails the next one, and then goes on.
///
/// A write that fails may still have reached the disk: its range counts as unsynced, with the bytes of the write as the new ones, unless memory for it was refused.
#[derive(Drop)]
pub struct FaultDisk<A: Allocator = Global> {
    disk: MemDisk<A>,
    left: Option<u64>,
}

impl<A: Allocator> Model for FaultDisk<A> {
    ghost use Rattle.disk.specs.Failing.{FaultState};

    ghost Value = { FaultState };

    ghost view = { λ f. record { disk = f.disk; left = f.left } };
}

impl<A: Allocator + Clone> FaultDisk<A> {
    /// A disk that fails the call after so many.
    pub fn new(disk: MemDisk<A>, calls: u64) -> FaultDisk<A>
        ensures { result ≡ record { disk = disk; left = Some calls } }
    {
        FaultDisk {
            disk,
            left: Some(calls),
        }
    }

    /// The disk as it is, without a stop.
    pub fn into_disk(self) -> MemDisk<A>
        ensures { result ≡ self.disk }
    {
        let FaultDisk { disk, left: _ } = self;
        disk
    }

    // Whether this call is to fail, which is noted.
    fn fails(&mut self) -> bool
        ensures fails { result ≡ none_left self.old.left }
        ensures passed { self.new ≡ passed self.old }
    {
        match self.left {
            None => false,
            Some(0) => {
                self.left = None;
                true
            }
            Some(calls) => {
                self.left = Some(calls - 1);
                false
            }
        }
    }
}

impl<A: Allocator + Clone> Disk for FaultDisk<A> {
    ghost seen = { λ f. f.disk.bytes };

    ghost may_leave = { λ f c. LeftBy f.disk c };

    ghost moment = { λ f. moment_of f.disk };

    ghost left_since = { λ f t c. LeftSince f.disk t c };

    ghost failed = { λ f. count_failed f.left };

    ghost counts_now = { λ f t c le now. left_now f.disk t c le now };

    ghost only_now = { λ f c left. left_only_now f.disk c left };

    fn size(&self) -> usize {
        self.disk.size()
    }

    fn failures(&self) -> u64 {
        match self.left {
            None => 1,
            Some(_) => 0,
        }
    }

    fn may_stop_as_read(&self) {
        self.disk.may_stop_as_read();
    }

    fn read(&mut self, at: usize, out: &mut [u8]) -> Result<(), DiskFault>
        requires { at + length out.old ≤ length self.old.disk.bytes }
        ensures fault { FailsWhere (none_left self.old.left) result }
        ensures passed { self.new ≡ passed self.old }
        ensures bytes { OnOk result (out.new ≡ take (length out.old) (drop at self.old.disk.bytes)) }
        ensures seen { self.new.disk.bytes ≡ self.old.disk.bytes }
        ensures crash { NoMore (LeftBy self.old.disk) (LeftBy self.new.disk) }
        ensures time { GoesOn self.old.disk self.new.disk }
        ensures cause { HasCause (count_failed self.old.left) (count_failed self.new.left) result }
        ensures no_memory_needed { IsErrOf result NoMemory → ⊥ }
    {
        if self.fails() {
            return Err(DiskFault::Device);
        }
        self.disk.read(at, out)
    }

    fn write_at(&mut self, at: usize, bytes: &[u8]) -> Result<(), DiskFault>
        requires { at + length bytes.now ≤ length self.old.disk.bytes }
        ensures fault { FailsWhere (none_left self.old.left) result }
        ensures done { OnOk result (self.new ≡ record (passed self.old) { disk = written self.old.disk at bytes.now }) }
        ensures either { (self.new ≡ record (passed self.old) { disk = written self.old.disk at bytes.now }) ⊎ (self.new ≡ passed self.old) }
        ensures written { OnOk result (Holds self.old.disk.bytes at bytes.now self.new.disk.bytes) }
        ensures elsewhere { ChangesOnly at (length bytes.now) self.old.disk.bytes self.new.disk.bytes }
        ensures refused { IsErrOf result NoMemory → (self.new.disk.bytes ≡ self.old.disk.bytes) × NoMore (LeftBy self.old.disk) (LeftBy self.new.disk) }
        ensures same { IsErrOf result NoMemory → self.new ≡ passed self.old }
        ensures crash { Follows (ChangesOnly at (length bytes.now)) (LeftBy self.old.disk) (LeftBy self.new.disk) }
        ensures time { GoesOn self.old.disk self.new.disk }
        ensures cause { HasCause (count_failed self.old.left) (count_failed self.new.left) result }
    {
        let fails = self.fails();
        let result = self.disk.write_at(at, bytes);
        if fails {
            return Err(DiskFault::Device);
        }
        result
    }

    fn sync(&mut self) -> Result<(), DiskFault>
        ensures fault { FailsWhere (none_left self.old.left) result }
        ensures failed { OnErr result (self.new ≡ passed self.old) }
        ensures done { OnOk result (self.new ≡ record (passed self.old) { disk = synced self.old.disk }) }
        ensures durable { OnOk result (Only self.old.disk.bytes (LeftBy self.new.disk)) }
        ensures seen { self.new.disk.bytes ≡ self.old.disk.bytes }
        ensures crash { NoMore (LeftBy self.old.disk) (LeftBy self.new.disk) }
        ensures time { GoesOn self.old.disk self.new.disk }
        ensures cause { HasCause (count_failed self.old.left) (count_failed self.new.left) result }
        ensures no_memory_needed { IsErrOf result NoMemory → ⊥ }
    {
        if self.fails() {
            return Err(DiskFault::Device);
        }
        self.disk.sync()
    }

    fn forget_past(&mut self)
        ensures begun { self.new ≡ record self.old { disk = begun_anew self.old.disk } }
        ensures seen { self.new.disk.bytes ≡ self.old.disk.bytes }
        ensures crash { NoMore (LeftBy self.old.disk) (LeftBy self.new.disk) }
        ensures time { BeginsAnew self.old.disk self.new.disk }
        ensures failed { count_failed self.new.left ≡ count_failed self.old.left }
    {
        self.disk.forget_past();
    }

    fn arm(&mut self, calls: u64)
        ensures same { self.new ≡ self.old }
        ensures seen { self.new.disk.bytes ≡ self.old.disk.bytes }
        ensures crash { NoMore (LeftBy self.old.disk) (LeftBy self.new.disk) }
        ensures time { GoesOn self.old.disk self.new.disk }
        ensures failed { count_failed self.new.left ≡ count_failed self.old.left }
    {
        let _ = calls;
    }
}

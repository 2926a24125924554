//! A page of a disk in memory.

ghost use Rattle.std.specs.Prelude.{◌≡◌, ◌≤◌, ◌+◌, ◌-◌, ◌++◌, [], length, replicate, take, drop, OnOk};
ghost use Rattle.disk.specs.Bytes.{put_at};
ghost use Rattle.disk.specs.Pages.{bytes_in};

use std::alloc::{AllocError, Allocator, Global};
use std::marker::Model;

/// A page. Its bytes past those that it keeps are zero.
#[derive(Drop)]
pub struct Page<A: Allocator = Global> {
    bytes: Vec<u8, A>,
}

impl<A: Allocator> Model for Page<A> {
    ghost use Rattle.std.specs.Prelude.{ℕ, List};

    ghost Value = { List ℕ };

    ghost view = { λ p. p.bytes.items };
}

impl<A: Allocator + Clone> Page<A> {
    pub fn new(alloc: A) -> Page<A>
        ensures { result ≡ [] }
    {
        Page {
            bytes: Vec::new(alloc),
        }
    }

    // Keeps so many bytes at least.
    pub fn grow(&mut self, count: usize) -> Result<(), AllocError>
        ensures bytes { self.new ≡ self.old ++ replicate (length self.new - length self.old) 0 }
        ensures ok { OnOk result (count ≤ length self.new) }
    {
        let stored = self.bytes.len();
        if stored < count {
            self.bytes.resize(count, 0)?;
        }
        Ok(())
    }

    pub fn read(&self, at: usize, out: &mut [u8])
        ensures { out.new ≡ bytes_in self.now at (length out.old) }
    {
        let stored = self.bytes.len();
        if at >= stored {
            fill_with_zeros(out);
            return;
        }
        let known = (stored - at).min(out.len());
        copy_to_front(out, &self.bytes[at..at + known]);
        fill_rest(out, known);
    }

    pub fn put(&mut self, at: usize, bytes: &[u8])
        requires { at + length bytes.now ≤ length self.old }
        ensures { self.new ≡ put_at self.old at bytes.now }
    {
        self.bytes[at..at + bytes.len()].copy_from_slice(bytes);
    }
}

pub(crate) fn fill_with_zeros(out: &mut [u8])
    ensures { out.new ≡ replicate (length out.old) 0 }
{
    out.fill(0);
}

fn copy_to_front(out: &mut [u8], bytes: &[u8])
    requires { length bytes.now ≤ length out.old }
    ensures { out.new ≡ bytes.now ++ drop (length bytes.now) out.old }
{
    out[..bytes.len()].copy_from_slice(bytes);
}

// Zeros from a place on.
fn fill_rest(out: &mut [u8], from: usize)
    requires { from ≤ length out.old }
    ensures { out.new ≡ take from out.old ++ replicate (length out.old - from) 0 }
{
    out[from..].fill(0);
}

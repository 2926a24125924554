//! What a disk in memory remembers of a write.

use std::alloc::{Allocator, Global};
use std::marker::Model;

/// A write: the bytes that it wrote over, and whether a sync came next.
#[derive(Drop)]
pub struct PastWrite<A: Allocator = Global> {
    pub at: usize,
    pub old: Vec<u8, A>,
    pub synced: bool,
}

impl<A: Allocator> Model for PastWrite<A> {
    ghost use Rattle.disk.specs.Writes.{Write};

    ghost Value = { Write };

    ghost view = { λ w. record { at = w.at; old = w.old.items; synced = w.synced } };
}

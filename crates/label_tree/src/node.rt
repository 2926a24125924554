//! One node.

ghost use Rattle.std.specs.Prelude.{◌≡◌, None};

use crate::label::Label;
use std::mem;

/// A label, what stands at its end, what goes on there, and the later siblings.
#[derive(Drop)]
pub struct TrieNode<V, T> {
    pub label: Label,
    pub value: Option<V>,
    pub below: T,
    pub next: T,
}

impl<V: Drop, T: Drop> TrieNode<V, T> {
    /// Puts a value at its end.
    pub fn set_value(&mut self, value: Option<V>)
        ensures { self.new ≡ record { label = self.old.label; value = value; below = self.old.below; next = self.old.next } }
    {
        self.value = value;
    }

    /// Puts other nodes below it.
    pub fn set_below(&mut self, below: T)
        ensures { self.new ≡ record { label = self.old.label; value = self.old.value; below = below; next = self.old.next } }
    {
        self.below = below;
    }

    /// Puts other siblings behind it.
    pub fn set_next(&mut self, next: T)
        ensures { self.new ≡ record { label = self.old.label; value = self.old.value; below = self.old.below; next = next } }
    {
        self.next = next;
    }
}

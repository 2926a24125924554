//! A piece of a path.

ghost use Rattle.std.specs.Prelude.{◌≡◌, ◌≤◌, ◌+◌, ◌++◌, length, take, drop};

use arrayvec::ArrayVec;
use std::marker::Model;

/// The most bytes of a label.
pub const LABEL_LEN: usize = 24;

/// A piece of a path, of at most so many bytes. It takes no memory but its own place. Seen as its bytes.
#[derive(Drop)]
pub struct Label {
    bytes: ArrayVec<u8, 24>,
}

impl Model for Label {
    ghost use Rattle.std.specs.Prelude.{List, ℕ};

    ghost Value = { List ℕ };

    ghost view = { λ l. l.bytes.items };
}

impl Label {
    /// A copy of these bytes.
    pub fn of(bytes: &[u8]) -> Label
        requires { length bytes.now ≤ 24 }
        ensures { result ≡ bytes.now }
    {
        let mut label = ArrayVec::new();
        let Ok(()) = label.try_extend_from_slice(bytes) else {
            unreachable!()
        };
        Label { bytes: label }
    }

    /// Its bytes.
    pub fn as_slice(&self) -> &[u8]
        ensures value { result.now ≡ self.now }
        ensures fits { length result.now ≤ 24 }
    {
        self.bytes.as_slice()
    }

    /// Keeps the first bytes alone.
    pub fn truncate(&mut self, len: usize)
        ensures { self.new ≡ take len self.old }
    {
        self.bytes.truncate(len);
    }

    /// Puts bytes behind its own, where both fit.
    pub fn extend(&mut self, more: &[u8])
        requires { length self.old + length more.now ≤ 24 }
        ensures { self.new ≡ self.old ++ more.now }
    {
        let Ok(()) = self.bytes.try_extend_from_slice(more) else {
            unreachable!()
        };
    }
}

//! The front of a block, hashed.

ghost use Rattle.std.specs.Prelude.{◌≡◌, ◌≤◌, ℕ, List, length};
ghost use Rattle.sha2.specs.Sha256.{sha256};
ghost use Rattle.store_disk.specs.Fronts.{IsFrontOf};

use sha2::{Digest, Sha256};

// SHA-256 takes so many bytes at a time.
const PIECE: usize = 64;

/// A hasher of the first bytes of a block, and their number.
#[derive(Drop)]
pub(crate) struct HashedFront {
    count: usize,
    hasher: Sha256,
}

impl HashedFront {
    /// No byte of any block.
    pub(crate) fn new() -> HashedFront
        ensures { (block : List ℕ) → IsFrontOf block result }
    {
        HashedFront {
            count: 0,
            hasher: Sha256::new(),
        }
    }

    /// This front of a block, where another one begins with it too.
    pub(crate) fn shared_with(&self, block: &[u8], other: &[u8]) -> HashedFront
        requires { IsFrontOf block.now self.now }
        ensures { IsFrontOf other.now result }
    {
        let count = self.count;
        if other.len() < count || block[..count] != other[..count] {
            return HashedFront::new();
        }
        match self.hasher.clone() {
            Ok(hasher) => HashedFront { count, hasher },
            Err(_) => HashedFront::new(),
        }
    }

    /// With the bytes before a place, where they aren't in it.
    pub(crate) fn extended_to(self, block: &[u8], end: usize) -> HashedFront
        requires front { IsFrontOf block.now self }
        requires within { end ≤ length block.now }
        ensures { IsFrontOf block.now result }
    {
        let HashedFront { count, mut hasher } = self;
        if end <= count {
            return HashedFront { count, hasher };
        }
        hasher.update(&block[count..end]);
        HashedFront { count: end, hasher }
    }

    /// The digest of the block.
    pub(crate) fn digest_of(&self, block: &[u8]) -> [u8; 32]
        requires { IsFrontOf block.now self.now }
        ensures { result ≡ sha256 block.now }
    {
        match self.hasher.clone() {
            Ok(mut hasher) => {
                hasher.update(&block[self.count..]);
                hasher.finalize()
            }
            Err(_) => Sha256::digest(block),
        }
    }
}

/// Where the last piece of a block begins that isn't zero. What is written behind what a block has leaves the bytes before that place.
pub(crate) fn last_filled(block: &[u8]) -> usize
    ensures { result ≤ length block.now }
{
    let zeros = [0; PIECE];
    let count = block.len() / PIECE;
    for done in 0..count {
        let start = PIECE * (count - 1 - done);
        if block[start..start + PIECE] != zeros[..] {
            return start;
        }
    }
    0
}

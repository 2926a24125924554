//! The blocks that were hashed last.

ghost use Rattle.std.specs.Prelude.{◌≡◌};
ghost use Rattle.sha2.specs.Sha256.{sha256};

use crate::hashed_front::last_filled;
use crate::known_block::KnownBlock;
use std::alloc::Global;
use std::marker::Model;

/// The last block with hardly a byte that isn't zero and the last other one that were hashed, with their digests: the same block isn't hashed again, and of one that
/// has more written behind the same bytes these aren't.
#[derive(Drop)]
pub struct HashedBlock {
    filled: KnownBlock,
    blank: KnownBlock,
}

impl Model for HashedBlock {
    ghost Value = { Unit {0} };

    ghost view = { λ _. tt };
}

impl HashedBlock {
    /// None was hashed so far.
    pub fn new(alloc: Global) -> HashedBlock {
        HashedBlock {
            filled: KnownBlock::new(alloc),
            blank: KnownBlock::new(alloc),
        }
    }

    /// The digest of a block.
    pub fn digest_of(&mut self, block: &[u8]) -> [u8; 32]
        ensures { result ≡ sha256 block.now }
    {
        if let Some(digest) = self.filled.known(block) {
            return digest;
        }
        if let Some(digest) = self.blank.known(block) {
            return digest;
        }
        let front = last_filled(block);
        if front == 0 {
            self.blank.hash(block, front)
        } else {
            self.filled.hash(block, front)
        }
    }
}

//! A block whose digest is known.

ghost use Rattle.std.specs.Prelude.{◌≡◌, ◌≤◌, length, IfSome};
ghost use Rattle.sha2.specs.Sha256.{sha256};
ghost use Rattle.store_disk.specs.Fronts.{IsFrontOf};

use crate::hashed_front::HashedFront;
use std::alloc::Global;
use std::marker::Model;

/// A block with its digest, and a front of it, hashed.
#[derive(Drop)]
pub(crate) struct KnownBlock {
    bytes: Vec<u8>,
    digest: Option<[u8; 32]>,
    front: HashedFront,
}

impl Model for KnownBlock {
    ghost use Rattle.std.specs.Prelude.{◌≡◌, IfSome};
    ghost use Rattle.sha2.specs.Sha256.{sha256};
    ghost use Rattle.store_disk.specs.Fronts.{IsFrontOf};

    ghost Value = { Unit {0} };

    ghost view = { λ _. tt };

    ghost invariant = { λ k. IfSome k.digest (λ digest. digest ≡ sha256 k.bytes.items) × IsFrontOf k.bytes.items k.front };
}

impl KnownBlock {
    /// None is known.
    pub(crate) fn new(alloc: Global) -> KnownBlock {
        KnownBlock {
            bytes: Vec::new(alloc),
            digest: None,
            front: HashedFront::new(),
        }
    }

    /// Its digest, where it is this block.
    pub(crate) fn known(&self, block: &[u8]) -> Option<[u8; 32]>
        ensures { IfSome result (λ digest. digest ≡ sha256 block.now) }
    {
        match self.digest {
            Some(digest) if block == self.bytes.as_slice() => Some(digest),
            _ => None,
        }
    }

    /// The digest of a block, which is the known one then, with the hash of its bytes before a place.
    pub(crate) fn hash(&mut self, block: &[u8], front: usize) -> [u8; 32]
        requires { front ≤ length block.now }
        ensures { result ≡ sha256 block.now }
    {
        let known = self.front.shared_with(self.bytes.as_slice(), block);
        let hashed = known.extended_to(block, front);
        let digest = hashed.digest_of(block);
        self.keep(block, hashed, digest);
        digest
    }

    // Where memory is refused none is known.
    fn keep(&mut self, block: &[u8], front: HashedFront, digest: [u8; 32])
        requires front { IsFrontOf block.now front }
        requires digest { digest ≡ sha256 block.now }
    {
        self.bytes.clear();
        let Ok(()) = self.bytes.extend_from_slice(block) else {
            self.digest = None;
            self.front = HashedFront::new();
            return;
        };
        self.digest = Some(digest);
        self.front = front;
    }
}

//! A digest for each block.

ghost use Rattle.std.specs.Prelude.{◌≡◌, ◌≤◌, ◌*◌, ◌↔◌, length, IfOk, IsTrue};
ghost use Rattle.replica_store.specs.Replicas.{digests_of};

use crate::hashed_block::HashedBlock;
use std::alloc::{AllocError, Global};

/// The digests of so many blocks, one after another. One that is the same as that hashed last isn't hashed again.
pub fn digests_of_blocks(
    alloc: Global,
    hashed: &mut HashedBlock,
    block: usize,
    count: usize,
    bytes: &[u8],
) -> Result<Vec<u8>, AllocError>
    requires { count * block ≤ length bytes.now }
    ensures { IfOk result (λ v. v.items ≡ digests_of block count bytes.now) }
{
    let mut digests = Vec::new(alloc);
    let mut rest = bytes;
    for _ in 0..count {
        let (first, after) = rest.split_at(block);
        let digest = hashed.digest_of(first);
        digests.extend_from_slice(&digest)?;
        rest = after;
    }
    Ok(digests)
}

/// Whether so many blocks have just these digests.
pub fn blocks_match(
    alloc: Global,
    hashed: &mut HashedBlock,
    block: usize,
    count: usize,
    bytes: &[u8],
    digests: &[u8],
) -> Result<bool, AllocError>
    requires { count * block ≤ length bytes.now }
    ensures { IfOk result (λ b. IsTrue b ↔ digests_of block count bytes.now ≡ digests.now) }
{
    let found = digests_of_blocks(alloc, hashed, block, count, bytes)?;
    Ok(found.as_slice() == digests)
}

//! Laws of a replica's bytes on a disk.

ghost use Rattle.std.specs.Prelude.{◌≡◌, ◌≤◌, ◌<◌, ◌+◌, ◌-◌, ◌*◌, ◌/◌, ◌↔◌, ℕ, true, List, [], ◌∷◌, length, take, drop};
ghost use Rattle.replica_store.specs.Replicas.{Replica, block_matches, blocks_match, digests_of, read_bytes, read_end, rotten_replica, written_over};
ghost use Rattle.store_disk.specs.Blocks.{RunMatches};

/// A byte that rots is one byte of the disk.
pub fn rot_lies_in_its_place()
    ensures { (r : Replica) (place byte : ℕ) → place < length r.bytes → (rotten_replica r place byte).bytes ≡ written_over r.bytes place (byte ∷ []) }
{}

/// Blocks match just where their bytes have their digests.
pub fn blocks_match_by_digest()
    ensures run { (block : ℕ) (r : Replica) (first count : ℕ)
        → digests_of block count (drop (first * block) r.bytes) ≡ take (32 * count) (drop (32 * first) r.digests) ↔ RunMatches block r first count }
    ensures touched { (block : ℕ) (r : Replica) (offset end_place : ℕ)
        → blocks_match block r offset end_place ≡ true ↔ ((n : ℕ) → offset / block ≤ n → n ≤ (end_place - 1) / block → block_matches block r n ≡ true) }
{}

/// What a read gives stands on the disk, from its offset on.
pub fn reads_are_of_the_disk()
    ensures { (r : Replica) (offset count : ℕ) → offset ≤ read_end r offset count → take (read_end r offset count - offset) (drop offset r.bytes) ≡ read_bytes r offset count }
{}

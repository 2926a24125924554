//! Nodes by their numbers.

ghost use Rattle.std.specs.Prelude.{◌≡◌, ◌<◌, ◌⊎◌, suc, MatchOption};

/// The place of a number from 1 among so many.
pub(crate) fn place_of(number: u64, count: usize) -> Option<usize>
    ensures { MatchOption result ((number ≡ 0) ⊎ (count < number)) (λ place. (number ≡ suc place) × (place < count)) }
{
    if number == 0 || number > count as u64 {
        return None;
    }
    Some((number - 1) as usize)
}

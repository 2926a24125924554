//! Sums of moments, places and numbers.

ghost use Rattle.std.specs.Prelude.{◌≡◌, ◌+◌, ◌<◌, ◌^◌, IfOk};

use gfs_types::no_memory::NoMemory;

/// The sum of two numbers. A sum past 64 bits, which no clock, no file and no counter of a cell comes to, is taken as want
/// of memory.
pub fn sum(a: u64, b: u64) -> Result<u64, NoMemory>
    ensures value { IfOk result (λ s. s ≡ a + b) }
    ensures fits { IfOk result (λ _. a + b < 2 ^ 64) }
{
    match a.checked_add(b) {
        Some(sum) => Ok(sum),
        None => Err(NoMemory),
    }
}

//! Hidden names (section 4.4).

ghost use Rattle.std.specs.Prelude.{◌≡◌, ◌<◌, ◌≤◌, ◌∷◌, ◌++◌, [], string_bytes, IfOk, OnOk};
ghost use Rattle.gfs_types.specs.Paths.{hidden_name, last_digits, digit};

use gfs_types::ids::{FileId, Moment};
use gfs_types::no_memory::NoMemory;
use std::alloc::Global;

/// The name that hides a deleted file: the moment of its deletion in 20 digits, and its id in 16.
pub(crate) fn hidden_name(alloc: Global, moment: Moment, file: FileId) -> Result<String, NoMemory>
    ensures { IfOk result (λ t. string_bytes t ≡ hidden_name moment.0 file.0) }
{
    let mut text = String::from_str(alloc, "/.gone/")?;
    push_digits(&mut text, 10, 20, moment.0)?;
    text.push_str("-")?;
    push_digits(&mut text, 16, 16, file.0)?;
    Ok(text)
}

/// Adds the last digits of a number, so many of them.
fn push_digits(text: &mut String, base: u64, count: u64, number: u64) -> Result<(), NoMemory>
    requires least { 0 < base }
    requires most { base ≤ 16 }
    ensures { OnOk result (string_bytes text.new ≡ string_bytes text.old ++ last_digits base count number) }
{
    if count == 0 {
        return Ok(());
    }
    push_digits(text, base, count - 1, number / base)?;
    text.push_str(digit(number % base))?;
    Ok(())
}

fn digit(value: u64) -> &'static str
    requires { value < 16 }
    ensures { result.now ≡ digit value ∷ [] }
{
    match value {
        0 => "0",
        1 => "1",
        2 => "2",
        3 => "3",
        4 => "4",
        5 => "5",
        6 => "6",
        7 => "7",
        8 => "8",
        9 => "9",
        10 => "a",
        11 => "b",
        12 => "c",
        13 => "d",
        14 => "e",
        _ => "f",
    }
}

//! Settings as wide as their fields.

ghost use Rattle.std.specs.Prelude.{◌≡◌, min, ◌^◌, ◌-◌};

/// A setting as wide as its field. What is too great for the field becomes the field's greatest value, which is out of each
/// setting's range too.
pub fn narrowed(value: u64) -> u32
    ensures { result ≡ min value (2 ^ 32 - 1) }
{
    u32::try_from(value).unwrap_or(u32::MAX)
}

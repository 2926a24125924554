//! The moments that a cell was given.

ghost use Rattle.std.specs.Prelude.{◌≡◌, max};

use gfs_types::ids::Moment;

/// The later of two moments.
pub(crate) fn later(one: Moment, other: Moment) -> Moment
    ensures { result.0 ≡ max one.0 other.0 }
{
    Moment(one.0.max(other.0))
}

//! Which places a mutation covers.

ghost use Rattle.std.specs.Prelude.{◌≡◌, ◌<◌, ◌^◌, Some, IfSome};
ghost use Rattle.gfs_types.specs.Mutations.{end_of};
ghost use Rattle.cell_world.specs.Kept.{blank, mutation_of};

use gfs_types::mutation::Mutation;

/// The places of so many bytes from one on, or those up to the end of a pad.
#[derive(Clone, Copy, Debug)]
pub enum Extent {
    Bytes { start: u64, count: u64 },
    Pad { start: u64, end: u64 },
}

impl Extent {
    pub(crate) fn of(mutation: &Mutation) -> Extent
        ensures { mutation_of result ≡ blank mutation.now }
    {
        match mutation {
            Mutation::Write(offset, bytes) | Mutation::Append(offset, bytes) => Extent::Bytes {
                start: *offset,
                count: bytes.len() as u64,
            },
            Mutation::Pad(offset, end) => Extent::Pad {
                start: *offset,
                end: *end,
            },
        }
    }

    /// A pad over these places. None where their end is no number.
    pub(crate) fn pad(self) -> Option<Mutation>
        ensures pad { IfSome result (λ m. m ≡ mutation_of self) }
        ensures end { IfSome result (λ m. end_of m < 2 ^ 64) }
    {
        match self {
            Extent::Bytes { start, count } => {
                let end = start.checked_add(count)?;
                Some(Mutation::Pad(start, end))
            }
            Extent::Pad { start, end } => Some(Mutation::Pad(start, end)),
        }
    }
}

//! What a read has read so far: one shared piece, or room for all that was asked.

ghost use Rattle.std.specs.Prelude.{◌≡◌, ◌++◌, [], IfOk, OnOk, length};
ghost use Rattle.client_state.specs.Holding.{bytes_held};

use crate::held::ReadBytes;
use bytes::Bytes;
use gfs_types::no_memory::NoMemory;
use std::alloc::Global;
use std::marker::Model;

/// The bytes that a read has so far, seen as their list.
#[derive(Drop)]
pub struct Gathered {
    held: ReadBytes,
    alloc: Global,
}

impl Model for Gathered {
    ghost use Rattle.std.specs.Prelude.{List, ℕ};
    ghost use Rattle.client_state.specs.Holding.{bytes_held};

    ghost Value = { List ℕ };

    ghost view = { λ g. bytes_held g.held };
}

impl Gathered {
    /// No bytes. Takes no memory.
    pub fn new(alloc: Global) -> Gathered
        ensures { result ≡ [] }
    {
        Gathered {
            held: ReadBytes::One(Bytes::new()),
            alloc,
        }
    }

    /// With one more piece, of a read of so many bytes. A piece alone is shared; of several each is copied once.
    pub fn with(self, found: &Bytes, wanted: usize) -> Result<Gathered, NoMemory>
        ensures { IfOk result (λ g. g ≡ self ++ found.now) }
    {
        let Gathered { held, alloc } = self;
        match held {
            ReadBytes::One(first) => {
                if first.is_empty() {
                    let first = found.clone()?;
                    return Ok(Gathered {
                        held: ReadBytes::One(first),
                        alloc,
                    });
                }
                let mut many = Vec::new(alloc);
                many.reserve(wanted)?;
                many.extend_from_slice(first.as_slice())?;
                many.extend_from_slice(found.as_slice())?;
                Ok(Gathered {
                    held: ReadBytes::Many(many),
                    alloc,
                })
            }
            ReadBytes::Many(mut many) => {
                many.extend_from_slice(found.as_slice())?;
                Ok(Gathered {
                    held: ReadBytes::Many(many),
                    alloc,
                })
            }
        }
    }

    /// All of them, without a copy.
    pub fn into_bytes(self) -> Result<Bytes, NoMemory>
        ensures { IfOk result (λ b. b ≡ self) }
    {
        match self.held {
            ReadBytes::One(bytes) => Ok(bytes),
            ReadBytes::Many(many) => Ok(Bytes::from_vec(many)?),
        }
    }
}

//! How large a file's chunks are, and how many replicas of each are wanted.

ghost use Rattle.std.specs.Prelude.{◌≡◌, ◌<◌, ◌≤◌};
ghost use Rattle.gfs_types.specs.Shapes.{fits, shape_or, usual_shape};

use crate::config::Config;

/// The shape of a file, which it has from its creation on.
#[derive(Clone, Copy, Debug, PartialEq, Eq)]
pub struct Shape {
    /// Bytes of a chunk.
    pub chunk: u32,
    /// Replicas wanted.
    pub goal: u8,
}

impl Shape {
    /// The shape of a file that is made without one: the settings' chunk and goal. No settings that are in their range have a goal past 255.
    pub fn usual(config: &Config) -> Shape
        ensures { result ≡ usual_shape config.now }
    {
        Shape {
            chunk: config.chunk,
            goal: config.goal.min(255) as u8,
        }
    }

    /// The shape that was asked for, or else this one.
    pub fn or(self, asked: Option<Shape>) -> Shape
        ensures { result ≡ shape_or self asked }
    {
        match asked {
            Some(shape) => shape,
            None => self,
        }
    }

    /// Whether a file of a cell with these settings may have it.
    pub fn fits(self, config: &Config) -> bool
        ensures { result ≡ fits config.now self }
    {
        self.chunk >= 64
            && self.chunk <= config.chunk
            && config.block != 0
            && self.chunk % config.block == 0
            && self.goal >= 1
            && self.goal <= 8
    }
}

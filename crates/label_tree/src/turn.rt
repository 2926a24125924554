//! Where a path goes at a label.

/// Where a path goes at a label that is a sibling of others.
#[derive(Clone, Copy, Debug, PartialEq, Eq)]
pub enum Turn {
    /// It begins with a smaller byte.
    Before,
    /// It begins with a larger byte.
    After,
    /// It begins with the whole label.
    Through,
    /// It begins with so many of the label's bytes, and leaves the label there.
    Cut(usize),
}

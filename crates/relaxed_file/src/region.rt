//! What a chunk's places are known to hold.

/// A maximal range of places of a chunk, `from` up to but without `to`, whose bytes are all determined or all
/// undetermined (section 2.7.1).
#[derive(Clone, Copy, Debug, PartialEq, Eq)]
pub struct Region {
    pub from: u64,
    pub to: u64,
    pub determined: bool,
}

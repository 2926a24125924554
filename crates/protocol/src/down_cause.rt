//! Why a node goes down.

/// Why a node goes down.
#[derive(Clone, Copy, Debug, PartialEq, Eq)]
pub enum DownCause {
    /// A device failed.
    Device,
    /// The log has no room for what an opening adds to it.
    NoRoom,
    /// Memory was refused.
    Memory,
}

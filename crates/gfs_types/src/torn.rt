//! What a stop leaves of unsynced writes.

/// What a restart finds in ranges that were written since the last sync.
#[derive(Clone, Copy, Debug, PartialEq, Eq)]
pub enum Torn {
    Old,
    New,
    Byte(u8),
}

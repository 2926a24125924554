//! How a store stands to its disk.

ghost use Rattle.std.specs.Prelude.{◌≡◌};
ghost use Rattle.disk_store.specs.Standing.{refused};

use replica_store::change::StoreChange;

/// What the store knows of its disk.
#[derive(Drop)]
pub enum DiskStoreState {
    /// The store is open on its disk.
    Open,
    /// The disk has to be read anew. The change that was refused wasn't begun.
    Unread(Option<StoreChange>),
    /// This change failed on its way.
    Changing(StoreChange),
}

// A change is under way that wasn't begun.
pub(crate) fn refused(standing: DiskStoreState, change: StoreChange) -> DiskStoreState
    ensures { result ≡ refused standing change }
{
    match standing {
        DiskStoreState::Open => DiskStoreState::Unread(Some(change)),
        DiskStoreState::Unread(_) => DiskStoreState::Unread(Some(change)),
        DiskStoreState::Changing(other) => DiskStoreState::Changing(other),
    }
}

//! A plain model of a store of a few replicas in chunks of 64 bytes, which never stops.

use crate::changes::{Shown, more};
use gfs_types::ids::{Handle, OrderNo, Serial, Version};
use replica_store::change::StoreChange;
use replica_store::row::Row;

const CHUNK: usize = 64;

/// The replicas are of this handle and of the next two.
const FIRST: u64 = 7;

#[derive(Clone, Copy)]
struct PlainReplica {
    row: Row,
    bytes: [u8; CHUNK],
    // Another byte stands on the disk than was stored.
    is_rotten: bool,
}

impl PlainReplica {
    /// The mutation of this serial puts a byte there, and what lies before it is zero where there was nothing.
    fn put(&mut self, serial: Serial, place: u64, byte: u8) {
        if let Some(at) = self.bytes.get_mut(place as usize) {
            *at = byte;
        }
        self.row.serial = serial;
        self.row.count = self.row.count.max(place.saturating_add(1));
    }

    fn write(&mut self, serial: Serial, offset: u64, bytes: &[u8]) {
        let mut place = offset;
        for byte in bytes {
            self.put(serial, place, *byte);
            place = place.saturating_add(1);
        }
    }

    fn zero(&mut self, serial: Serial, offset: u64, count: u64) {
        for place in offset..offset.saturating_add(count) {
            self.put(serial, place, 0);
        }
    }

    /// This byte stands there on the disk. One rots at a time.
    fn rot(&mut self, place: u64, byte: u8) {
        let stored = self.bytes.get(place as usize).copied();
        self.is_rotten = stored != Some(byte);
    }

    /// A replica with the same bytes under a version, of which no mutation was applied.
    fn copied(&self, version: Version) -> PlainReplica {
        let mut copy = *self;
        copy.row.version = version;
        copy.row.serial = Serial(0);
        copy
    }
}

#[derive(Clone, Copy)]
pub(crate) struct PlainStore {
    order: OrderNo,
    replicas: [Option<PlainReplica>; 3],
}

impl PlainStore {
    pub(crate) fn new() -> PlainStore {
        PlainStore {
            order: OrderNo { epoch: 0, count: 0 },
            replicas: [None; 3],
        }
    }

    fn replica(&mut self, handle: Handle) -> Option<&mut PlainReplica> {
        let place = handle.0.checked_sub(FIRST)?;
        self.replicas.get_mut(place as usize)?.as_mut()
    }

    fn set(&mut self, handle: Handle, replica: Option<PlainReplica>) {
        let place = handle.0.saturating_sub(FIRST);
        if let Some(at) = self.replicas.get_mut(place as usize) {
            *at = replica;
        }
    }

    /// A change that leaves the replicas that there are.
    pub(crate) fn commit(&mut self, change: &StoreChange) {
        match change {
            StoreChange::SetOrder(order) => self.order = *order,
            StoreChange::Put {
                handle,
                version,
                serial,
                bytes,
            } => {
                let mut replica = PlainReplica {
                    row: Row {
                        version: *version,
                        serial: *serial,
                        count: 0,
                    },
                    bytes: [0; CHUNK],
                    is_rotten: false,
                };
                replica.write(*serial, 0, bytes.as_slice());
                self.set(*handle, Some(replica));
            }
            StoreChange::Copy {
                handle,
                copy,
                version,
            } => {
                let copied = self.replica(*handle).map(|known| known.copied(*version));
                self.set(*copy, copied);
            }
            StoreChange::Remove(handle) => self.set(*handle, None),
            change => self.mutate(change),
        }
    }

    /// A change of one replica, where it is there.
    fn mutate(&mut self, change: &StoreChange) {
        match change {
            StoreChange::Write {
                handle,
                serial,
                offset,
                bytes,
            } => {
                if let Some(replica) = self.replica(*handle) {
                    replica.write(*serial, *offset, bytes.as_slice());
                }
            }
            StoreChange::Zero {
                handle,
                serial,
                offset,
                count,
            } => {
                if let Some(replica) = self.replica(*handle) {
                    replica.zero(*serial, *offset, *count);
                }
            }
            StoreChange::Raise { handle, version } => {
                if let Some(replica) = self.replica(*handle) {
                    *replica = replica.copied(*version);
                }
            }
            StoreChange::Rot {
                handle,
                place,
                byte,
            } => {
                if let Some(replica) = self.replica(*handle) {
                    replica.rot(*place, *byte);
                }
            }
            _ => {}
        }
    }

    /// The handles and versions of the replicas, as a hash.
    fn listed(&self) -> u64 {
        let mut sum: u64 = 17;
        let mut handle = FIRST;
        for replica in self.replicas {
            if let Some(known) = replica {
                sum = more(more(sum, handle), known.row.version.0);
            }
            handle = handle.saturating_add(1);
        }
        sum
    }

    pub(crate) fn shown(&self) -> Shown {
        let [first, second, third] = self.replicas;
        Shown {
            order: self.order,
            count: self.replicas.iter().flatten().count(),
            listed: self.listed(),
            rows: [row_of(first), row_of(second), row_of(third)],
            bytes: [hash_of(first), hash_of(second), hash_of(third)],
        }
    }
}

fn row_of(replica: Option<PlainReplica>) -> Option<Row> {
    Some(replica?.row)
}

// Rotten bytes aren't shown.
fn hash_of(replica: Option<PlainReplica>) -> Option<u64> {
    let known = replica?;
    if known.is_rotten {
        return None;
    }
    let mut sum: u64 = 17;
    for byte in known.bytes.iter().take(known.row.count as usize) {
        sum = more(sum, u64::from(*byte));
    }
    Some(sum)
}

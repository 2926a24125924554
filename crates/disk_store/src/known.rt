//! The number of the last order, and each replica's row.

ghost use Rattle.std.specs.Prelude.{◌≡◌, ◌+◌, ℕ, true, map as mapped, nat_le, IfOk, OnErr, OnOk};
ghost use Rattle.store_disk.specs.Rows.{rows_of};
ghost use Rattle.std.specs.FinMap as map;
ghost use Rattle.replica_store.specs.Replicas.{ServerDisk, disk_changed, is_disk_full, row_at};
ghost use Rattle.replica_store.specs.Stores.{replica_lines};
ghost use Rattle.disk_store.specs.Known.{IsKnownOf, HaveTheirBytes, can_be_made, entry_of, longer_row, raised_row, row_line, rows_with};

use crate::telling::{can_take, is_within, longer_row, other_version, raised_row};
use gfs_types::ids::{Handle, OrderNo, Serial, Version};
use gfs_types::no_memory::NoMemory;
use messages::message::ReplicaLine;
use messages::message_lists::ReplicaList;
use ordered_map::OrderedMap;
use replica_store::change::StoreChange;
use replica_store::row::Row;
use std::alloc::{AllocError, Global};

/// What is known of a disk without a look at it.
#[derive(Drop)]
pub struct Known {
    pub order: OrderNo,
    pub rows: OrderedMap<Row>,
}

impl Known {
    /// Of a disk with this order and these replicas.
    pub fn of(alloc: Global, order: OrderNo, list: &[(Handle, Row)]) -> Result<Known, AllocError>
        ensures { IfOk result (λ k. (d : ServerDisk) → order ≡ record { epoch = d.epoch; count = d.count } → list.now ≡ rows_of d → IsKnownOf k.order k.rows d) }
    {
        let rows = rows_in(alloc, list)?;
        Ok(Known { order, rows })
    }

    /// The row of a replica.
    pub fn row(&self, handle: Handle) -> Option<Row>
        ensures { result ≡ map.get self.now.rows handle.0 }
    {
        self.rows.get(handle.0).copied()
    }

    /// How many replicas there are.
    pub fn len(&self) -> usize
        ensures { (d : ServerDisk) → IsKnownOf self.now.order self.now.rows d → result ≡ map.len d.replicas }
    {
        self.rows.len()
    }

    /// Whether so many slots are used.
    pub fn is_full(&self, slots: u32) -> bool
        ensures { (d : ServerDisk) → IsKnownOf self.now.order self.now.rows d → result ≡ is_disk_full slots d }
    {
        slots as usize <= self.rows.len()
    }

    /// The replicas with their versions, in rising handle.
    pub fn list(&self, alloc: Global) -> Result<ReplicaList, NoMemory>
        ensures { (d : ServerDisk) → IsKnownOf self.now.order self.now.rows d → IfOk result (λ l. l ≡ replica_lines d) }
    {
        lines_of(alloc, &self.rows)
    }

    /// Whether the rows tell that the change can be made, and it lies within a chunk.
    pub fn can_be_made(&self, chunk: u32, change: &StoreChange) -> bool
        ensures { result ≡ can_be_made chunk self.now.rows change.now }
    {
        match change {
            StoreChange::SetOrder(_) => true,
            StoreChange::Put { handle, bytes, .. } => {
                self.row(*handle).is_none() && is_within(chunk, 0, bytes.len() as u64)
            }
            StoreChange::Write {
                handle,
                serial,
                offset,
                bytes,
            } => {
                can_take(self.row(*handle), *serial)
                    && is_within(chunk, *offset, bytes.len() as u64)
            }
            StoreChange::Zero {
                handle,
                serial,
                offset,
                count,
            } => can_take(self.row(*handle), *serial) && is_within(chunk, *offset, *count),
            StoreChange::Raise { handle, version } => other_version(self.row(*handle), *version),
            StoreChange::Copy { handle, copy, .. } => {
                self.row(*handle).is_some() && self.row(*copy).is_none()
            }
            StoreChange::Remove(handle) => self.row(*handle).is_some(),
            StoreChange::Rot { handle, place, .. } => {
                self.row(*handle).is_some() && *place < u64::from(chunk)
            }
        }
    }

    /// The change was made. At an error nothing that is known has changed.
    pub fn make(&mut self, chunk: u32, change: &StoreChange) -> Result<(), AllocError>
        requires { can_be_made chunk self.old.rows change.now ≡ true }
        ensures ok { (d : ServerDisk) → IsKnownOf self.old.order self.old.rows d → HaveTheirBytes d → OnOk result (IsKnownOf self.new.order self.new.rows (disk_changed d change.now)) }
        ensures err { OnErr result (self.new ≡ self.old) }
    {
        match change {
            StoreChange::SetOrder(order) => {
                self.order = *order;
                Ok(())
            }
            StoreChange::Put {
                handle,
                version,
                serial,
                bytes,
            } => {
                let row = Row {
                    version: *version,
                    serial: *serial,
                    count: bytes.len() as u64,
                };
                self.rows.insert(handle.0, row)
            }
            StoreChange::Write {
                handle,
                serial,
                offset,
                bytes,
            } => {
                let end = end_of(chunk, *offset, bytes.len() as u64);
                lengthen(&mut self.rows, *handle, *serial, end)
            }
            StoreChange::Zero {
                handle,
                serial,
                offset,
                count,
            } => {
                let end = end_of(chunk, *offset, *count);
                lengthen(&mut self.rows, *handle, *serial, end)
            }
            StoreChange::Raise { handle, version } => {
                raise(&mut self.rows, *handle, *handle, *version)
            }
            StoreChange::Copy {
                handle,
                copy,
                version,
            } => raise(&mut self.rows, *handle, *copy, *version),
            StoreChange::Remove(handle) => {
                self.rows.remove(handle.0);
                Ok(())
            }
            // A byte that rots shows in no row.
            StoreChange::Rot {
                handle: _handle,
                place: _place,
                byte: _byte,
            } => Ok(()),
        }
    }
}

// Where a range ends that lies within a chunk.
fn end_of(chunk: u32, offset: u64, count: u64) -> u64
    requires { nat_le (offset + count) chunk ≡ true }
    ensures { result ≡ offset + count }
{
    let _chunk = chunk;
    offset + count
}

// The mutation of this serial, which ends there, was a replica's last one.
fn lengthen(
    rows: &mut OrderedMap<Row>,
    handle: Handle,
    serial: Serial,
    end: u64,
) -> Result<(), AllocError>
    ensures ok { OnOk result (rows.new ≡ rows_with (λ row. longer_row row serial.0 end) rows.old handle.0 (map.get rows.old handle.0)) }
    ensures err { OnErr result (rows.new ≡ rows.old) }
{
    let Some(row) = rows.get(handle.0).copied() else {
        return Ok(());
    };
    rows.insert(handle.0, longer_row(row, serial, end))
}

// The row of one handle, under a new version, is the other one's.
fn raise(
    rows: &mut OrderedMap<Row>,
    handle: Handle,
    other: Handle,
    version: Version,
) -> Result<(), AllocError>
    ensures ok { OnOk result (rows.new ≡ rows_with (λ row. raised_row row version.0) rows.old other.0 (map.get rows.old handle.0)) }
    ensures err { OnErr result (rows.new ≡ rows.old) }
{
    let Some(row) = rows.get(handle.0).copied() else {
        return Ok(());
    };
    rows.insert(other.0, raised_row(row, version))
}

fn rows_in(alloc: Global, list: &[(Handle, Row)]) -> Result<OrderedMap<Row>, AllocError>
    ensures { IfOk result (λ rows. rows ≡ map.from_entries (mapped entry_of list.now)) }
{
    let count = list.len();
    let mut rows = OrderedMap::new(alloc);
    for done in 0..count {
        let (handle, row) = list[count - 1 - done];
        rows.insert(handle.0, row)?;
    }
    Ok(rows)
}

fn lines_of(alloc: Global, rows: &OrderedMap<Row>) -> Result<ReplicaList, NoMemory>
    ensures { IfOk result (λ l. l ≡ mapped row_line (map.entries rows.now)) }
{
    let mut lines = Vec::new(alloc);
    for (handle, row) in rows.iter() {
        lines.push(row_line(*handle, row))?;
    }
    Ok(ReplicaList::new(lines))
}

fn row_line(handle: u64, row: &Row) -> ReplicaLine
    ensures { result ≡ row_line (handle, row.now) }
{
    ReplicaLine {
        handle: Handle(handle),
        version: row.version,
    }
}

//! Bytes of the parts of a disk.

ghost use Rattle.std.specs.Prelude.{◌≡◌, IfOk};
ghost use Rattle.store_disk.specs.Fields.{head_bytes, header_bytes, order_bytes};

use crate::header::SlotHeader;
use bytes::Bytes;
use gfs_types::ids::OrderNo;
use std::alloc::{AllocError, Global};

/// The head but for its gate.
pub fn write_head(alloc: Global, chunk: u32, block: u32, slots: u32) -> Result<Bytes, AllocError>
    ensures { IfOk result (λ bytes. bytes ≡ head_bytes chunk block slots) }
{
    let mut out = Vec::with_capacity(alloc, 31)?;
    out.extend_from_slice(b"GFSC")?;
    out.extend_from_slice(&[1, 0, 0, 0])?;
    out.extend_from_slice(&chunk.to_le_bytes())?;
    out.extend_from_slice(&block.to_le_bytes())?;
    out.extend_from_slice(&slots.to_le_bytes())?;
    out.extend_from_slice(&[0; 11])?;
    Ok(Bytes::from_vec(out)?)
}

/// The number of an order.
pub fn write_order(alloc: Global, order: OrderNo) -> Result<Bytes, AllocError>
    ensures { IfOk result (λ bytes. bytes ≡ order_bytes order) }
{
    let mut out = Vec::with_capacity(alloc, 16)?;
    out.extend_from_slice(&order.epoch.to_le_bytes())?;
    out.extend_from_slice(&order.count.to_le_bytes())?;
    Ok(Bytes::from_vec(out)?)
}

/// The header of a slot that is used.
pub fn write_header(alloc: Global, header: SlotHeader) -> Result<Bytes, AllocError>
    ensures { IfOk result (λ bytes. bytes ≡ header_bytes header) }
{
    let mut out = Vec::with_capacity(alloc, 40)?;
    out.extend_from_slice(&[1, 0, 0, 0, 0, 0, 0, 0])?;
    out.extend_from_slice(&header.handle.0.to_le_bytes())?;
    out.extend_from_slice(&header.version.0.to_le_bytes())?;
    out.extend_from_slice(&header.serial.0.to_le_bytes())?;
    out.extend_from_slice(&header.count.to_le_bytes())?;
    Ok(Bytes::from_vec(out)?)
}

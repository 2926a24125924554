//! What was written is read again.

ghost use Rattle.std.specs.Prelude.{◌≡◌, ◌++◌, List, ℕ, Some, length};
ghost use Rattle.gfs_types.specs.declared.ids.OrderNo.{OrderNo};
ghost use Rattle.store_disk.specs.declared.header.SlotHeader.{SlotHeader};
ghost use Rattle.store_disk.specs.Fields.{FitsHeader, FitsOrder, head_bytes, header_bytes, header_in, order_bytes, order_in};

/// A slot's header is read as it was written, and has 40 bytes.
pub fn headers_read_back()
    ensures reads { (h : SlotHeader) (rest : List ℕ) → FitsHeader h → header_in (header_bytes h ++ rest) ≡ Some h }
    ensures size { (h : SlotHeader) → length (header_bytes h) ≡ 40 }
{}

/// The number of an order is read as it was written, and has 16 bytes.
pub fn orders_read_back()
    ensures reads { (order : OrderNo) (rest : List ℕ) → FitsOrder order → order_in (order_bytes order ++ rest) ≡ order }
    ensures size { (order : OrderNo) → length (order_bytes order) ≡ 16 }
{}

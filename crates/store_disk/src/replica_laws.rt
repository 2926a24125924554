//! Laws of a chunkserver's disk.

ghost use Rattle.std.specs.Prelude.{◌≡◌, ◌≤◌, ℕ, List, [], ◌∷◌, length, Some, None};
ghost use Rattle.std.specs.FinMap as map;
ghost use Rattle.std.specs.List.{range_with_len};
ghost use Rattle.disk.specs.Bytes.{put_at};
ghost use Rattle.gfs_types.specs.declared.ids.OrderNo.{OrderNo};
ghost use Rattle.replica_store.specs.declared.change.StoreChange.TheVariants.{Put, Raise, Remove, SetOrder};
ghost use Rattle.replica_store.specs.declared.row.Row.{Row};
ghost use Rattle.replica_store.specs.Replicas.{ServerDisk, disk_changed, new_server_disk};
ghost use Rattle.store_disk.specs.Index.{IndexState, index_with, index_without};
ghost use Rattle.store_disk.specs.declared.held.HeldReplica.{HeldReplica};
ghost use Rattle.store_disk.specs.Formats.{IsFormatted};
ghost use Rattle.store_disk.specs.Fields.{FitsHeader, FitsOrder, header_bytes, order_bytes};
ghost use Rattle.store_disk.specs.Places.{disk_size, slot_place};
ghost use Rattle.store_disk.specs.Stored.{IsDiskOf, header_of, raised_row, slot_bytes};

/// The number of an order, written in its place, is the change that sets it.
pub fn orders_are_stored()
    ensures { (chunk block slots : ℕ) (index : IndexState) (disk : List ℕ) (d : ServerDisk) (order : OrderNo)
        → FitsOrder order → disk_size chunk block slots ≤ length disk → IsDiskOf chunk block slots index disk d
        → IsDiskOf chunk block slots index (put_at disk 32 (order_bytes order)) (disk_changed d (SetOrder order)) }
{}

/// A header with another version and the serial 0, written in a replica's slot, is the change that raises it.
pub fn raises_are_stored()
    ensures { (chunk block slots : ℕ) (index : IndexState) (disk : List ℕ) (d : ServerDisk) (handle version : ℕ) (found : HeldReplica)
        → disk_size chunk block slots ≤ length disk → IsDiskOf chunk block slots index disk d → map.get index.held handle ≡ Some found
        → FitsHeader (header_of handle (raised_row version found.row))
        → IsDiskOf chunk block slots (record index { held = map.insert index.held handle (record found { row = raised_row version found.row }) })
        (put_at disk (slot_place chunk block found.slot) (header_bytes (header_of handle (raised_row version found.row))))
        (disk_changed d (Raise (record { 0 = handle }) (record { 0 = version }))) }
{}

/// A zero, written in the first byte of a replica's slot, is the change that removes it.
pub fn removals_are_stored()
    ensures { (chunk block slots : ℕ) (index : IndexState) (disk : List ℕ) (d : ServerDisk) (handle : ℕ) (found : HeldReplica)
        → disk_size chunk block slots ≤ length disk → IsDiskOf chunk block slots index disk d → map.get index.held handle ≡ Some found
        → IsDiskOf chunk block slots (index_without index handle (Some found))
        (put_at disk (slot_place chunk block found.slot) (0 ∷ []))
        (disk_changed d (Remove (record { 0 = handle }))) }
{}

/// A whole slot, written in the lowest free one, is the change that puts a new replica there.
pub fn puts_are_stored()
    ensures { (chunk block slots : ℕ) (index : IndexState) (disk : List ℕ) (d : ServerDisk) (handle slot : ℕ) (rest : List ℕ) (row : Row) (bytes : List ℕ)
        → disk_size chunk block slots ≤ length disk → IsDiskOf chunk block slots index disk d → map.get index.held handle ≡ None
        → index.free ≡ slot ∷ rest → length bytes ≤ chunk → row.count ≡ length bytes → FitsHeader (header_of handle row)
        → IsDiskOf chunk block slots (index_with index handle row (slot ∷ rest))
        (put_at disk (slot_place chunk block slot) (slot_bytes chunk block (header_of handle row) bytes))
        (disk_changed d (Put (record { 0 = handle }) row.version row.serial bytes)) }
{}

/// A disk that was formatted has no replicas, and no order was taken.
pub fn formatted_disks_are_empty()
    ensures { (chunk block slots : ℕ) (disk : List ℕ) → IsFormatted chunk block slots disk
        → IsDiskOf chunk block slots (record { held = map.empty; free = range_with_len 0 slots }) disk (new_server_disk chunk block slots) }
{}

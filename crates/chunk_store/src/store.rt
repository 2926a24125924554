//! The store.

ghost use Rattle.chunk_store.specs.Opening.{HoldsReplicas, IsOpening};
ghost use Rattle.chunk_store.specs.Stores.{IsOpen, LeavesChange};
ghost use Rattle.chunk_store.specs.declared.fault.OpenFault.TheVariants as opening_faults;
ghost use Rattle.disk.specs.Device.{HasCause};
ghost use Rattle.disk_redo.specs.GateMoments.{LeavesOnly, OnlyReads};
ghost use Rattle.replica_store.specs.Replicas.{ServerDisk, disk_changed, is_disk_full, is_writable_at, read_at, row_at};
ghost use Rattle.replica_store.specs.declared.change.StoreChange.TheVariants.{Copy, Put, Raise, Remove, Rot, SetOrder};
ghost use Rattle.replica_store.specs.declared.row.Row.{Row};
ghost use Rattle.std.specs.FinMap as map;
ghost use Rattle.std.specs.Option.{option_map};
ghost use Rattle.std.specs.Prelude.{IfErr, IfOk, IsErrOf, None, OnOk, Some, [], false, length, true, ◌%◌, ◌+◌, ◌<◌, ◌↔◌, ◌≡◌, ◌≢◌, ◌≤◌, ◌⊎◌};
ghost use Rattle.store_changes.specs.Faults.{IsRefused, MayFail};
ghost use Rattle.store_changes.specs.Images.{image_at};
ghost use Rattle.store_changes.specs.Mutations.{bytes_of as bytes_value, change_of, place_of as place_value};
ghost use Rattle.store_changes.specs.declared.fault.StoreFault.TheVariants as faults;
ghost use Rattle.store_disk.specs.Formats.{IsHeadOf, is_head_open};
ghost use Rattle.store_disk.specs.Places.{disk_size};
ghost use Rattle.store_disk.specs.Rows.{rows_of};
ghost use Rattle.chunk_store.specs.Faults.{stays_open};

use crate::fault::OpenFault;
use crate::volume::StoreVolume;
use bytes::Bytes;
use disk::{Disk, DiskFault};
use gfs_types::ids::{Handle, OrderNo, Serial, Version};
use gfs_types::mutation::Mutation;
use replica_store::row::Row;
use std::alloc::{AllocError, Global};
use std::marker::Model;
use store_changes::StoreFault;
use store_disk::{HeldReplica, Layout};

/// A chunkserver's replicas on a disk: the number of the last order that was taken, and where the replicas lie. The bytes are on the disk; in memory stand those of two blocks at most, which were hashed last.
#[derive(Drop)]
pub struct Store<D: Disk> {
    volume: StoreVolume<D>,
    // No change has failed since the store was opened.
    is_open: bool,
}

impl<D: Disk> Model for Store<D> {
    ghost use Rattle.std.specs.Coded.{codes, coded_ℕ};
    ghost use Rattle.std.specs.FinMap as map;
    ghost use Rattle.chunk_store.specs.Stores.{StoreState};
    ghost use Rattle.chunk_store.specs.Volumes.{IsSound, store_of};

    ghost Value = { StoreState D };

    ghost coded = { Prim.hlevel (codes, map.code, coded_ℕ, D.code) };

    ghost view = { λ s. store_of s.volume s.is_open };

    ghost invariant = { λ s. IsSound D.seen D.may_leave s.volume s.is_open };
}

// Whether a store is still open after a change.
fn stays_open(done: &Result<(), StoreFault>) -> bool
    ensures { result ≡ stays_open done.now }
{
    match done {
        Ok(()) => true,
        Err(fault) => fault.is_refusal(),
    }
}

impl<D: Disk> Store<D> {
    /// Opens a store, for chunks of whole blocks. A disk whose head is closed is formatted, and holds no replicas.
    ///
    /// An error hands the disk back. `Damaged`: the disk is another layout's. `NoMemory`: an allocator refused what the call needs. `Device`: the disk failed in this call.
    pub fn open(alloc: Global, disk: D, layout: Layout) -> Result<Store<D>, (D, OpenFault)>
        requires whole { layout.chunk % layout.block ≡ 0 }
        ensures open { IfOk result (λ store. (d : ServerDisk) → HoldsReplicas layout.chunk layout.block layout.slots (D.seen disk) d → IsOpen D.seen D.may_leave store d) }
        ensures is_open { IfOk result (λ store. store.is_open ≡ true) }
        ensures layout { IfOk result (λ store. store.layout ≡ layout) }
        // An open head that isn't this layout's is refused, and nothing else but a disk that is too small: a new disk never is.
        ensures its_head { is_head_open (D.seen disk) ≡ true → OnOk result (IsHeadOf layout.chunk layout.block layout.slots (D.seen disk)) }
        ensures large { OnOk result (disk_size layout.chunk layout.block layout.slots ≤ length (D.seen disk)) }
        ensures undamaged { disk_size layout.chunk layout.block layout.slots ≤ length (D.seen disk) → (is_head_open (D.seen disk) ≡ true → IsHeadOf layout.chunk layout.block layout.slots (D.seen disk)) → IfErr result (λ e. e.1 ≡ opening_faults.Damaged → ⊥) }
        // After an error, too, the disk holds what it held.
        ensures held { IfErr result (λ e. (d : ServerDisk) → HoldsReplicas layout.chunk layout.block layout.slots (D.seen disk) d → HoldsReplicas layout.chunk layout.block layout.slots (D.seen e.0) d) }
        // A stop at any moment of the call leaves what one before it might have left, a disk that is being formatted, or one that stands for what the disk held.
        ensures any_moment { IfOk result (λ store. LeavesOnly D.moment D.left_since disk store.disk (IsOpening layout.chunk layout.block layout.slots (D.seen disk) (D.may_leave disk))) }
        ensures any_moment_of_error { IfErr result (λ e. LeavesOnly D.moment D.left_since disk e.0 (IsOpening layout.chunk layout.block layout.slots (D.seen disk) (D.may_leave disk))) }
        ensures cause { IfErr result (λ e. e.1 ≡ opening_faults.Device → D.failed disk < D.failed e.0) }
    {
        match StoreVolume::open(disk, alloc, layout) {
            Ok(volume) => {
                let store = Store {
                    volume,
                    is_open: true,
                };
                Ok(store)
            }
            Err(error) => Err(error),
        }
    }

    /// Whether the store is open. Once its disk has failed or memory was refused in a change it isn't.
    pub fn is_open(&self) -> bool
        ensures { result ≡ self.now.is_open }
    {
        self.is_open
    }

    /// The disk as it is.
    pub fn into_disk(self) -> D
        ensures { result ≡ self.disk }
    {
        self.volume.into_disk()
    }

    /// How often its disk has failed.
    pub fn failures(&self) -> u64
        ensures { result ≡ D.failed self.now.disk }
    {
        self.volume.failures()
    }

    /// Lets that many calls of the disk pass and fails each later one, where the disk can be told to fail. The store stays as it is.
    pub fn arm(&mut self, calls: u64)
        ensures still_open { (d : ServerDisk) → IsOpen D.seen D.may_leave self.old d → IsOpen D.seen D.may_leave self.new d }
        ensures unchanged { self.new ≡ record self.old { disk = self.new.disk } }
        ensures reads { OnlyReads D.seen D.may_leave D.moment D.left_since self.old.disk self.new.disk }
        ensures failed { D.failed self.new.disk ≡ D.failed self.old.disk }
    {
        self.volume.arm(calls);
    }

    /// The layout of its disk. Each chunk is of whole blocks.
    pub fn layout(&self) -> Layout
        ensures value { result ≡ self.now.layout }
        ensures whole { result.chunk % result.block ≡ 0 }
    {
        self.volume.layout()
    }

    /// How many bytes a chunk has.
    pub fn chunk(&self) -> u32
        ensures { result ≡ self.now.layout.chunk }
    {
        self.volume.chunk()
    }

    /// Where a replica lies, and what is known of it.
    pub fn held(&self, handle: Handle) -> Option<HeldReplica>
        ensures { result ≡ map.get self.now.index.held handle.0 }
    {
        self.volume.held(handle)
    }

    /// The version, the last serial and the number of bytes of a replica.
    pub fn row(&self, handle: Handle) -> Option<Row>
        ensures { (d : ServerDisk) → IsOpen D.seen D.may_leave self.now d → result ≡ row_at d handle.0 }
    {
        self.volume.row(handle)
    }

    /// How many bytes a replica has.
    pub fn length(&self, handle: Handle) -> Option<u64>
        ensures { (d : ServerDisk) → IsOpen D.seen D.may_leave self.now d → result ≡ option_map (λ row. row.count) (row_at d handle.0) }
    {
        self.volume.length(handle)
    }

    /// Each replica's handle, with its version, its last serial and how many bytes it has, in rising handle. At an error memory was refused.
    pub fn list(&self, alloc: Global) -> Result<Vec<(Handle, Row)>, AllocError>
        ensures { (d : ServerDisk) → IsOpen D.seen D.may_leave self.now d → IfOk result (λ rows. rows.items ≡ rows_of d) }
    {
        self.volume.list(alloc)
    }

    /// The number of the last order that was taken.
    pub fn order(&self) -> OrderNo
        ensures { (d : ServerDisk) → IsOpen D.seen D.may_leave self.now d → result ≡ record { epoch = d.epoch; count = d.count } }
    {
        self.volume.order()
    }

    /// The bytes of a replica of exactly this version from `offset` on, at most `count`; those past its end aren't there. Bytes of a block that doesn't match its digest are never answered.
    pub fn read(
        &mut self,
        alloc: Global,
        handle: Handle,
        version: Version,
        offset: u64,
        count: u64,
    ) -> Result<Bytes, StoreFault>
        requires is_open { self.old.is_open ≡ true }
        ensures ok { (d : ServerDisk) → IsOpen D.seen D.may_leave self.old d → IfOk result (λ bytes. Some bytes ≡ read_at d handle.0 offset count) }
        ensures still_open { (d : ServerDisk) → IsOpen D.seen D.may_leave self.old d → IsOpen D.seen D.may_leave self.new d }
        ensures no_chunk { (d : ServerDisk) → IsOpen D.seen D.may_leave self.old d → (IsErrOf result faults.NoChunk ↔ row_at d handle.0 ≡ None) }
        ensures version { (d : ServerDisk) → IsOpen D.seen D.may_leave self.old d → (IsErrOf result faults.Version ↔ (row : Row) × (row_at d handle.0 ≡ Some row) × (row.version ≢ version)) }
        ensures corrupt { (d : ServerDisk) → IsOpen D.seen D.may_leave self.old d → IsErrOf result faults.Corrupt → read_at d handle.0 offset count ≡ None }
        ensures no_room { IsErrOf result faults.NoRoom → ⊥ }
        ensures no_serial { IsErrOf result faults.OldSerial → ⊥ }
        ensures unchanged { self.new ≡ record self.old { disk = self.new.disk } }
        ensures reads { OnlyReads D.seen D.may_leave D.moment D.left_since self.old.disk self.new.disk }
        ensures cause { MayFail (D.failed self.old.disk) (D.failed self.new.disk) result }
    {
        self.volume.read(alloc, handle, version, offset, count)
    }

    /// All bytes of a replica of exactly this version. Nothing is answered where one of its blocks doesn't match its digest.
    pub fn image(
        &mut self,
        alloc: Global,
        handle: Handle,
        version: Version,
    ) -> Result<Bytes, StoreFault>
        requires is_open { self.old.is_open ≡ true }
        ensures ok { (d : ServerDisk) → IsOpen D.seen D.may_leave self.old d → IfOk result (λ bytes. Some bytes ≡ image_at d handle.0) }
        ensures still_open { (d : ServerDisk) → IsOpen D.seen D.may_leave self.old d → IsOpen D.seen D.may_leave self.new d }
        ensures no_chunk { (d : ServerDisk) → IsOpen D.seen D.may_leave self.old d → (IsErrOf result faults.NoChunk ↔ row_at d handle.0 ≡ None) }
        ensures version { (d : ServerDisk) → IsOpen D.seen D.may_leave self.old d → (IsErrOf result faults.Version ↔ (row : Row) × (row_at d handle.0 ≡ Some row) × (row.version ≢ version)) }
        ensures corrupt { (d : ServerDisk) → IsOpen D.seen D.may_leave self.old d → IsErrOf result faults.Corrupt → image_at d handle.0 ≡ None }
        ensures no_room { IsErrOf result faults.NoRoom → ⊥ }
        ensures no_serial { IsErrOf result faults.OldSerial → ⊥ }
        ensures unchanged { self.new ≡ record self.old { disk = self.new.disk } }
        ensures reads { OnlyReads D.seen D.may_leave D.moment D.left_since self.old.disk self.new.disk }
        ensures cause { MayFail (D.failed self.old.disk) (D.failed self.new.disk) result }
    {
        self.volume.image(alloc, handle, version)
    }

    /// Stores a new replica with these bytes, in the lowest free slot.
    pub fn install(
        &mut self,
        alloc: Global,
        handle: Handle,
        version: Version,
        serial: Serial,
        bytes: &[u8],
    ) -> Result<(), StoreFault>
        requires is_open { self.old.is_open ≡ true }
        requires within { length bytes.now ≤ self.old.layout.chunk }
        ensures ok { (d : ServerDisk) → IsOpen D.seen D.may_leave self.old d → OnOk result (IsOpen D.seen D.may_leave self.new (disk_changed d (Put handle version serial bytes.now))) }
        ensures version { (d : ServerDisk) → IsOpen D.seen D.may_leave self.old d → (IsErrOf result faults.Version ↔ (row : Row) × (row_at d handle.0 ≡ Some row)) }
        ensures no_room { (d : ServerDisk) → IsOpen D.seen D.may_leave self.old d
            → (IsErrOf result faults.NoRoom ↔ (row_at d handle.0 ≡ None) × (is_disk_full self.old.layout.slots d ≡ true)) }
        ensures no_chunk { IsErrOf result faults.NoChunk → ⊥ }
        ensures intact { IsErrOf result faults.Corrupt → ⊥ }
        ensures no_serial { IsErrOf result faults.OldSerial → ⊥ }
        ensures refused { (d : ServerDisk) → IsOpen D.seen D.may_leave self.old d → IsRefused result → IsOpen D.seen D.may_leave self.new d }
        ensures any_moment { LeavesChange D.seen D.moment D.left_since self.old self.new (Put handle version serial bytes.now) }
        ensures layout { self.new.layout ≡ self.old.layout }
        ensures open { self.new.is_open ≡ stays_open result }
        ensures cause { MayFail (D.failed self.old.disk) (D.failed self.new.disk) result }
    {
        let done = self.volume.install(alloc, handle, version, serial, bytes);
        self.is_open = stays_open(&done);
        done
    }

    /// Stores a new replica without bytes.
    pub fn create(
        &mut self,
        alloc: Global,
        handle: Handle,
        version: Version,
    ) -> Result<(), StoreFault>
        requires is_open { self.old.is_open ≡ true }
        ensures ok { (d : ServerDisk) → IsOpen D.seen D.may_leave self.old d → OnOk result (IsOpen D.seen D.may_leave self.new (disk_changed d (Put handle version (record { 0 = 0 }) []))) }
        ensures version { (d : ServerDisk) → IsOpen D.seen D.may_leave self.old d → (IsErrOf result faults.Version ↔ (row : Row) × (row_at d handle.0 ≡ Some row)) }
        ensures no_room { (d : ServerDisk) → IsOpen D.seen D.may_leave self.old d
            → (IsErrOf result faults.NoRoom ↔ (row_at d handle.0 ≡ None) × (is_disk_full self.old.layout.slots d ≡ true)) }
        ensures no_chunk { IsErrOf result faults.NoChunk → ⊥ }
        ensures intact { IsErrOf result faults.Corrupt → ⊥ }
        ensures no_serial { IsErrOf result faults.OldSerial → ⊥ }
        ensures refused { (d : ServerDisk) → IsOpen D.seen D.may_leave self.old d → IsRefused result → IsOpen D.seen D.may_leave self.new d }
        ensures any_moment { LeavesChange D.seen D.moment D.left_since self.old self.new (Put handle version (record { 0 = 0 }) []) }
        ensures layout { self.new.layout ≡ self.old.layout }
        ensures open { self.new.is_open ≡ stays_open result }
        ensures cause { MayFail (D.failed self.old.disk) (D.failed self.new.disk) result }
    {
        let done = self.volume.create(alloc, handle, version);
        self.is_open = stays_open(&done);
        done
    }

    /// Keeps the number of the last order that was taken.
    pub fn set_order(&mut self, alloc: Global, order: OrderNo) -> Result<(), StoreFault>
        requires is_open { self.old.is_open ≡ true }
        ensures ok { (d : ServerDisk) → IsOpen D.seen D.may_leave self.old d → OnOk result (IsOpen D.seen D.may_leave self.new (disk_changed d (SetOrder order))) }
        ensures unrefused { IsRefused result → ⊥ }
        ensures any_moment { LeavesChange D.seen D.moment D.left_since self.old self.new (SetOrder order) }
        ensures layout { self.new.layout ≡ self.old.layout }
        ensures open { self.new.is_open ≡ stays_open result }
        ensures cause { MayFail (D.failed self.old.disk) (D.failed self.new.disk) result }
    {
        let done = self.volume.set_order(alloc, order);
        self.is_open = stays_open(&done);
        done
    }

    /// Gives a replica of exactly the base a new version, under which serials begin anew.
    pub fn set_version(
        &mut self,
        alloc: Global,
        handle: Handle,
        version: Version,
        base: Version,
    ) -> Result<(), StoreFault>
        requires is_open { self.old.is_open ≡ true }
        ensures ok { (d : ServerDisk) → IsOpen D.seen D.may_leave self.old d → OnOk result (IsOpen D.seen D.may_leave self.new (disk_changed d (Raise handle version))) }
        ensures no_chunk { (d : ServerDisk) → IsOpen D.seen D.may_leave self.old d → (IsErrOf result faults.NoChunk ↔ row_at d handle.0 ≡ None) }
        ensures version { (d : ServerDisk) → IsOpen D.seen D.may_leave self.old d → (IsErrOf result faults.Version ↔ (row : Row) × (row_at d handle.0 ≡ Some row) × (row.version ≢ base)) }
        ensures only { IsRefused result → IsErrOf result faults.NoChunk ⊎ IsErrOf result faults.Version }
        ensures refused { (d : ServerDisk) → IsOpen D.seen D.may_leave self.old d → IsRefused result → IsOpen D.seen D.may_leave self.new d }
        ensures any_moment { LeavesChange D.seen D.moment D.left_since self.old self.new (Raise handle version) }
        ensures layout { self.new.layout ≡ self.old.layout }
        ensures open { self.new.is_open ≡ stays_open result }
        ensures cause { MayFail (D.failed self.old.disk) (D.failed self.new.disk) result }
    {
        let done = self.volume.set_version(alloc, handle, version, base);
        self.is_open = stays_open(&done);
        done
    }

    /// Removes a replica. Its slot is free again.
    pub fn drop_replica(&mut self, alloc: Global, handle: Handle) -> Result<(), StoreFault>
        requires is_open { self.old.is_open ≡ true }
        ensures ok { (d : ServerDisk) → IsOpen D.seen D.may_leave self.old d → OnOk result (IsOpen D.seen D.may_leave self.new (disk_changed d (Remove handle))) }
        ensures no_chunk { (d : ServerDisk) → IsOpen D.seen D.may_leave self.old d → (IsErrOf result faults.NoChunk ↔ row_at d handle.0 ≡ None) }
        ensures only { IsRefused result → IsErrOf result faults.NoChunk }
        ensures refused { (d : ServerDisk) → IsOpen D.seen D.may_leave self.old d → IsRefused result → IsOpen D.seen D.may_leave self.new d }
        ensures any_moment { LeavesChange D.seen D.moment D.left_since self.old self.new (Remove handle) }
        ensures layout { self.new.layout ≡ self.old.layout }
        ensures open { self.new.is_open ≡ stays_open result }
        ensures cause { MayFail (D.failed self.old.disk) (D.failed self.new.disk) result }
    {
        let done = self.volume.drop_replica(alloc, handle);
        self.is_open = stays_open(&done);
        done
    }

    /// Applies a mutation to a replica of exactly this version, where its serial is greater than the last one. Before part of a block is written over, the first and the last block of the range are checked.
    pub fn apply(
        &mut self,
        alloc: Global,
        handle: Handle,
        version: Version,
        serial: Serial,
        mutation: &Mutation,
    ) -> Result<(), StoreFault>
        requires is_open { self.old.is_open ≡ true }
        requires within { place_value mutation.now + length (bytes_value mutation.now) ≤ self.old.layout.chunk }
        ensures ok { (d : ServerDisk) → IsOpen D.seen D.may_leave self.old d
            → OnOk result (IsOpen D.seen D.may_leave self.new (disk_changed d (change_of handle serial mutation.now))) }
        ensures no_chunk { (d : ServerDisk) → IsOpen D.seen D.may_leave self.old d → (IsErrOf result faults.NoChunk ↔ row_at d handle.0 ≡ None) }
        ensures version { (d : ServerDisk) → IsOpen D.seen D.may_leave self.old d → (IsErrOf result faults.Version ↔ (row : Row) × (row_at d handle.0 ≡ Some row) × (row.version ≢ version)) }
        ensures old_serial { (d : ServerDisk) → IsOpen D.seen D.may_leave self.old d
            → (IsErrOf result faults.OldSerial ↔ (row : Row) × (row_at d handle.0 ≡ Some row) × (row.version ≡ version) × (serial.0 ≤ row.serial.0)) }
        ensures corrupt { (d : ServerDisk) → IsOpen D.seen D.may_leave self.old d → IsErrOf result faults.Corrupt
            → is_writable_at d handle.0 (place_value mutation.now) (place_value mutation.now + length (bytes_value mutation.now)) ≡ false }
        ensures writable { (d : ServerDisk) → IsOpen D.seen D.may_leave self.old d
            → OnOk result (is_writable_at d handle.0 (place_value mutation.now) (place_value mutation.now + length (bytes_value mutation.now)) ≡ true) }
        // A range that can't be written over is only looked at.
        ensures untouched { (d : ServerDisk) → IsOpen D.seen D.may_leave self.old d
            → is_writable_at d handle.0 (place_value mutation.now) (place_value mutation.now + length (bytes_value mutation.now)) ≡ false
            → OnlyReads D.seen D.may_leave D.moment D.left_since self.old.disk self.new.disk }
        ensures no_room { IsErrOf result faults.NoRoom → ⊥ }
        ensures refused { (d : ServerDisk) → IsOpen D.seen D.may_leave self.old d → IsRefused result → IsOpen D.seen D.may_leave self.new d }
        ensures any_moment { LeavesChange D.seen D.moment D.left_since self.old self.new (change_of handle serial mutation.now) }
        ensures layout { self.new.layout ≡ self.old.layout }
        ensures open { self.new.is_open ≡ stays_open result }
        ensures cause { MayFail (D.failed self.old.disk) (D.failed self.new.disk) result }
    {
        let done = self.volume.apply(alloc, handle, version, serial, mutation);
        self.is_open = stays_open(&done);
        done
    }

    /// Stores a new replica with all bytes of one of exactly this version, in the lowest free slot. Nothing is copied where one of its blocks doesn't match its digest.
    pub fn copy_local(
        &mut self,
        alloc: Global,
        handle: Handle,
        version: Version,
        copy: Handle,
        copy_version: Version,
    ) -> Result<(), StoreFault>
        requires is_open { self.old.is_open ≡ true }
        ensures ok { (d : ServerDisk) → IsOpen D.seen D.may_leave self.old d → OnOk result (IsOpen D.seen D.may_leave self.new (disk_changed d (Copy handle copy copy_version))) }
        ensures no_chunk { (d : ServerDisk) → IsOpen D.seen D.may_leave self.old d → (IsErrOf result faults.NoChunk ↔ row_at d handle.0 ≡ None) }
        // The replica has another version, or there is one under the copy's handle.
        ensures version { (d : ServerDisk) → IsOpen D.seen D.may_leave self.old d
            → (IsErrOf result faults.Version ↔ (row : Row) × (row_at d handle.0 ≡ Some row) × ((row.version ≢ version) ⊎ ((held : Row) × (row_at d copy.0 ≡ Some held)))) }
        ensures corrupt { (d : ServerDisk) → IsOpen D.seen D.may_leave self.old d → IsErrOf result faults.Corrupt → image_at d handle.0 ≡ None }
        ensures no_room { (d : ServerDisk) → IsOpen D.seen D.may_leave self.old d
            → (IsErrOf result faults.NoRoom ↔ (row : Row) × (row_at d handle.0 ≡ Some row) × (row.version ≡ version) × (row_at d copy.0 ≡ None) × (is_disk_full self.old.layout.slots d ≡ true)) }
        ensures no_serial { IsErrOf result faults.OldSerial → ⊥ }
        ensures refused { (d : ServerDisk) → IsOpen D.seen D.may_leave self.old d → IsRefused result → IsOpen D.seen D.may_leave self.new d }
        ensures any_moment { LeavesChange D.seen D.moment D.left_since self.old self.new (Copy handle copy copy_version) }
        ensures layout { self.new.layout ≡ self.old.layout }
        ensures open { self.new.is_open ≡ stays_open result }
        ensures cause { MayFail (D.failed self.old.disk) (D.failed self.new.disk) result }
    {
        let done = self
            .volume
            .copy_local(alloc, handle, version, copy, copy_version);
        self.is_open = stays_open(&done);
        done
    }

    /// A byte of a replica becomes another on the disk, past its digest, as a failing disk might do. For tests and simulators alone.
    pub fn rot(
        &mut self,
        alloc: Global,
        handle: Handle,
        place: u64,
        byte: u8,
    ) -> Result<(), StoreFault>
        requires is_open { self.old.is_open ≡ true }
        requires place { place < self.old.layout.chunk }
        ensures ok { (d : ServerDisk) → IsOpen D.seen D.may_leave self.old d → OnOk result (IsOpen D.seen D.may_leave self.new (disk_changed d (Rot handle place byte))) }
        ensures no_chunk { (d : ServerDisk) → IsOpen D.seen D.may_leave self.old d → (IsErrOf result faults.NoChunk ↔ row_at d handle.0 ≡ None) }
        ensures only { IsRefused result → IsErrOf result faults.NoChunk }
        ensures refused { (d : ServerDisk) → IsOpen D.seen D.may_leave self.old d → IsRefused result → IsOpen D.seen D.may_leave self.new d }
        ensures any_moment { LeavesChange D.seen D.moment D.left_since self.old self.new (Rot handle place byte) }
        ensures layout { self.new.layout ≡ self.old.layout }
        ensures open { self.new.is_open ≡ stays_open result }
        ensures cause { MayFail (D.failed self.old.disk) (D.failed self.new.disk) result }
    {
        let done = self.volume.rot(alloc, handle, place, byte);
        self.is_open = stays_open(&done);
        done
    }

    /// Whether the range from `offset` to before `end` of a replica can be written over: its first and last block match their digests, where a part of them is.
    pub fn is_writable(
        &mut self,
        alloc: Global,
        handle: Handle,
        offset: u64,
        end: u64,
    ) -> Result<bool, DiskFault>
        requires is_open { self.old.is_open ≡ true }
        requires within { end ≤ self.old.layout.chunk }
        ensures value { (d : ServerDisk) → IsOpen D.seen D.may_leave self.old d → IfOk result (λ b. b ≡ is_writable_at d handle.0 offset end) }
        ensures still_open { (d : ServerDisk) → IsOpen D.seen D.may_leave self.old d → IsOpen D.seen D.may_leave self.new d }
        ensures unchanged { self.new ≡ record self.old { disk = self.new.disk } }
        ensures reads { OnlyReads D.seen D.may_leave D.moment D.left_since self.old.disk self.new.disk }
        ensures cause { HasCause (D.failed self.old.disk) (D.failed self.new.disk) result }
    {
        self.volume.is_writable(alloc, handle, offset, end)
    }
}

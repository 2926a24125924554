//! The places on a chunkserver's disk.

ghost use Rattle.std.specs.Prelude.{◌≡◌, ◌≤◌};
ghost use Rattle.gfs_types.specs.Settings.{largest_chunk};

/// The places of the parts of a chunkserver's disk, in bytes from the disk's start. Slots count from 0.
#[derive(Clone, Copy, Debug, PartialEq, Eq)]
pub struct Layout {
    pub chunk: u32,
    pub block: u32,
    pub slots: u32,
    ghost chunk_range: { chunk ≤ largest_chunk },
    ghost block_range: { 16 ≤ block },
    ghost slots_range: { slots ≤ 65536 },
}

impl Layout {
    ghost use Rattle.store_disk.specs.Places.{blocks_of, data_place, digests_place, disk_size, redo_size, slot_place, slot_size};

    /// The layout of a disk with so many slots, for chunks of `chunk` bytes in blocks of `block` bytes.
    pub fn new(chunk: u32, block: u32, slots: u32) -> Layout
        requires chunk_range { chunk ≤ largest_chunk }
        requires block_range { 16 ≤ block }
        requires slots_range { slots ≤ 65536 }
        ensures chunk { result.chunk ≡ chunk }
        ensures block { result.block ≡ block }
        ensures slots { result.slots ≡ slots }
    {
        Layout {
            chunk,
            block,
            slots,
        }
    }

    /// How many blocks a chunk has.
    pub fn blocks(self) -> usize
        ensures value { result ≡ blocks_of self.chunk self.block }
        ensures range { result ≤ 4194304 }
    {
        (self.chunk / self.block) as usize
    }

    /// How many bytes the redo area has.
    pub fn redo_size(self) -> usize
        ensures { result ≡ redo_size self.chunk self.block }
    {
        self.chunk as usize + 32 * self.blocks() + 256
    }

    /// How many bytes a slot has.
    pub fn slot_size(self) -> usize
        ensures value { result ≡ slot_size self.chunk self.block }
        ensures range { result ≤ 201326632 }
    {
        40 + 32 * self.blocks() + self.chunk as usize
    }

    /// Where a slot begins. One past the last is where the disk ends.
    pub fn slot(self, slot: u32) -> usize
        requires { slot ≤ self.slots }
        ensures { result ≡ slot_place self.chunk self.block slot }
    {
        48 + self.redo_size() + slot as usize * self.slot_size()
    }

    /// Where the digests of a slot begin.
    pub fn digests(self, slot: u32) -> usize
        requires { slot ≤ self.slots }
        ensures { result ≡ digests_place self.chunk self.block slot }
    {
        self.slot(slot) + 40
    }

    /// Where the chunk's bytes in a slot begin.
    pub fn chunk_bytes(self, slot: u32) -> usize
        requires { slot ≤ self.slots }
        ensures { result ≡ data_place self.chunk self.block slot }
    {
        self.digests(slot) + 32 * self.blocks()
    }

    /// How many bytes the disk has.
    pub fn disk_size(self) -> usize
        ensures { result ≡ disk_size self.chunk self.block self.slots }
    {
        self.slot(self.slots)
    }
}

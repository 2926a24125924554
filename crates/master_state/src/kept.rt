//! What the master keeps of a client's last changing name call, and of a copy that is under way.

ghost use Rattle.std.specs.Prelude.{◌≡◌};

use gfs_types::ids::{FileId, Handle};
use gfs_types::refusal::Refusal;
use std::marker::Model;

/// A client's last changing name call and its answer: Done where there is no refusal.
#[derive(Drop)]
pub struct KeptCall {
    number: u64,
    refusal: Option<Refusal>,
}

impl Model for KeptCall {
    ghost use Rattle.protocol.specs.Logged.{KeptCall};

    ghost Value = { KeptCall };

    ghost view = { λ k. record { number = k.number; refusal = k.refusal } };
}

impl KeptCall {
    pub fn new(number: u64, refusal: Option<Refusal>) -> KeptCall
        ensures { result ≡ record { number = number; refusal = refusal } }
    {
        KeptCall { number, refusal }
    }

    pub fn number(&self) -> u64
        ensures { result ≡ self.now.number }
    {
        self.number
    }

    pub fn refusal(&self) -> Option<Refusal>
        ensures { result ≡ self.now.refusal }
    {
        self.refusal
    }
}

/// A copy of a shared chunk that is under way: the file and the index that it is for, and the chunk that is copied.
#[derive(Drop)]
pub struct CopyRow {
    file: u64,
    index: u64,
    source: u64,
}

impl Model for CopyRow {
    ghost use Rattle.protocol.specs.Logged.{Copy};
    ghost use Rattle.master_state.specs.Coding.{coded_copy};

    ghost Value = { Copy };

    ghost coded = { coded_copy };

    ghost view = { λ c. record { file = c.file; index = c.index; source = c.source } };
}

impl CopyRow {
    pub fn new(file: FileId, index: u64, source: Handle) -> CopyRow
        ensures { result ≡ record { file = file.0; index = index; source = source.0 } }
    {
        CopyRow {
            file: file.0,
            index,
            source: source.0,
        }
    }

    pub fn file(&self) -> FileId
        ensures { result.0 ≡ self.now.file }
    {
        FileId(self.file)
    }

    pub fn index(&self) -> u64
        ensures { result ≡ self.now.index }
    {
        self.index
    }

    pub fn source(&self) -> Handle
        ensures { result.0 ≡ self.now.source }
    {
        Handle(self.source)
    }
}

//! The files that a client has open (section 2.4).

ghost use Rattle.std.specs.Prelude.{◌≡◌, OnOk, OnErr};
ghost use Rattle.std.specs.Option.{option_copied, option_map};
ghost use Rattle.std.specs.FinMap as table;
ghost use Rattle.protocol.specs.ClientCache.{last_opened_of};
ghost use Rattle.protocol.specs.ClientFiles.{files_after_open, files_after_close, last_append, with_last_append};

use client_state::kept::OpenFile;
use gfs_types::ids::Fd;
use gfs_types::no_memory::NoMemory;
use gfs_types::shape::Shape;
use ordered_map::number_map::NumberMap;
use std::alloc::Global;
use std::marker::Model;

/// The files that are open, by number. A look-up takes logarithmic time.
#[derive(Drop)]
pub struct OpenFiles {
    files: NumberMap<OpenFile>,
}

impl Model for OpenFiles {
    ghost use Rattle.std.specs.Ordering.{nat_cmp};
    ghost use Rattle.std.specs.Coded.{codes, coded_ℕ};
    ghost use Rattle.std.specs.FinMap as table;
    ghost use Rattle.client_state.specs.declared.kept.OpenFile.{OpenFile as OpenFileValue};

    ghost Value = { table.FinMap nat_cmp OpenFileValue };

    ghost coded = { Prim.hlevel (codes, table.code, coded_ℕ) };

    ghost view = { λ f. f.files };
}

impl OpenFiles {
    /// No file is open. Takes no memory.
    pub fn new(alloc: Global) -> OpenFiles
        ensures { result ≡ table.empty }
    {
        OpenFiles {
            files: NumberMap::new(alloc),
        }
    }

    fn get(&self, file: u64) -> Option<OpenFile>
        ensures { result ≡ table.get self.now file }
    {
        self.files.get(file).copied()
    }

    /// The number of the descriptor of a file's last Open; 0 of a file that isn't open.
    pub fn last_opened(&self, file: u64) -> u64
        ensures { result ≡ last_opened_of (table.get self.now file) }
    {
        match self.get(file) {
            None => 0,
            Some(open) => open.last_opened.0,
        }
    }

    /// The size of a file's chunks.
    pub fn chunk(&self, file: u64) -> Option<u32>
        ensures { result ≡ option_map (λ f. f.shape.chunk) (table.get self.now file) }
    {
        match self.get(file) {
            None => None,
            Some(open) => Some(open.shape.chunk),
        }
    }

    /// The index at which the last append to a file succeeded.
    pub fn last_append(&self, file: u64) -> Option<u64>
        ensures { result ≡ last_append self.now file }
    {
        match self.get(file) {
            None => None,
            Some(open) => open.last_append,
        }
    }

    /// A file of this shape is opened, under a new descriptor; one that is open already keeps the shape that it has. At an error nothing has changed.
    pub fn open(&mut self, file: u64, shape: Shape, fd: u64) -> Result<(), NoMemory>
        ensures ok { OnOk result (self.new ≡ files_after_open self.old file shape fd) }
        ensures err { OnErr result (self.new ≡ self.old) }
    {
        let open = match self.get(file) {
            None => OpenFile {
                descriptors: 1,
                last_opened: Fd(fd),
                shape,
                last_append: None,
            },
            Some(open) => OpenFile {
                descriptors: open.descriptors.checked_add(1).ok_or(NoMemory)?,
                last_opened: Fd(fd),
                ..open
            },
        };
        self.files.insert(file, open)?;
        Ok(())
    }

    /// One descriptor of the file is closed, and with its last one the file. At an error nothing has changed.
    pub fn close(&mut self, file: u64) -> Result<(), NoMemory>
        ensures ok { OnOk result (self.new ≡ files_after_close self.old file) }
        ensures err { OnErr result (self.new ≡ self.old) }
    {
        let Some(open) = self.get(file) else {
            return Ok(());
        };
        if open.descriptors <= 1 {
            drop(self.files.remove(file));
            return Ok(());
        }
        let left = OpenFile {
            descriptors: open.descriptors - 1,
            ..open
        };
        self.files.insert(file, left)?;
        Ok(())
    }

    /// Keeps the index at which an append to an open file succeeded, or that none is known. At an error nothing has changed.
    pub fn set_last_append(&mut self, file: u64, index: Option<u64>) -> Result<(), NoMemory>
        ensures ok { OnOk result (self.new ≡ with_last_append self.old file index) }
        ensures err { OnErr result (self.new ≡ self.old) }
    {
        let Some(open) = self.get(file) else {
            return Ok(());
        };
        let open = OpenFile {
            last_append: index,
            ..open
        };
        self.files.insert(file, open)?;
        Ok(())
    }
}

//! Who asks the master for a chunk.

ghost use Rattle.std.specs.Prelude.{◌≡◌};

use gfs_types::ids::{FileId, Node};

/// Who asked, for which chunk of which file.
#[derive(Clone, Copy)]
pub struct Asker {
    pub client: Node,
    pub number: u64,
    pub file: FileId,
    pub index: u64,
}

impl Asker {
    /// The same for the chunk of this index.
    pub fn at_index(self, index: u64) -> Asker
        ensures { result ≡ record self { index = index } }
    {
        Asker { index, ..self }
    }
}

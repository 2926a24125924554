//! What stands at a name.

ghost use Rattle.std.specs.Prelude.{◌≡◌};
ghost use Rattle.relaxed_file.specs.Names.{Dir, File};
ghost use Rattle.namespace.specs.NameKinds.{node_of};

use crate::name_kind::NameKind;
use gfs_types::ids::FileId;
use path_trie::trie::Trie;
use std::marker::Model;

/// A directory, or a file under its id. Contracts see a `Node`.
#[derive(Debug, Drop)]
pub struct NameNode {
    kind: NameKind,
}

/// The names of a cell. Their memory lies in `A`.
pub type Namespace<A> = Trie<NameNode, A>;

impl Model for NameNode {
    ghost use Rattle.relaxed_file.specs.Names.{Node};
    ghost use Rattle.namespace.specs.NameKinds.{node_of};

    ghost Value = { Node };

    ghost view = { λ n. node_of n.kind };
}

impl NameNode {
    /// A directory.
    pub fn dir() -> NameNode
        ensures { result ≡ Dir }
    {
        NameNode {
            kind: NameKind::Dir,
        }
    }

    /// A file.
    pub fn file(id: FileId) -> NameNode
        ensures { result ≡ File id.0 }
    {
        NameNode {
            kind: NameKind::File(id),
        }
    }

    /// Which of both it is.
    pub fn kind(&self) -> NameKind
        ensures { node_of result ≡ self.now }
    {
        self.kind
    }
}

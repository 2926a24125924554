//! One name, and what stands there.

ghost use Rattle.std.specs.Prelude.{◌≡◌};
ghost use Rattle.machine_programs.specs.NameKinds.{node_of};

use crate::name_kind::PlainNameKind;
use gfs_types::lists::Text;
use std::marker::Model;

/// A full path and what stands there (section 4.1 of the Google File System paper).
#[derive(Debug, Drop)]
pub struct Name {
    path: Text,
    kind: PlainNameKind,
}

impl Model for Name {
    ghost use Rattle.std.specs.Prelude.{ℕ, List};
    ghost use Rattle.relaxed_file.specs.Names.{Node};
    ghost use Rattle.machine_programs.specs.NameKinds.{node_of};

    ghost Value = { List ℕ × Node };

    ghost view = { λ n. (n.path, node_of n.kind) };
}

impl Name {
    pub fn new(path: Text, kind: PlainNameKind) -> Name
        ensures { result ≡ (path, node_of kind) }
    {
        Name { path, kind }
    }

    pub fn path(&self) -> &str
        ensures { result.now ≡ self.now.0 }
    {
        self.path.as_str()
    }

    pub fn kind(&self) -> PlainNameKind
        ensures { node_of result ≡ self.now.1 }
    {
        self.kind
    }
}

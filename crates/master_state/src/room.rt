//! Whether the names have room for one more (section 4.1).

ghost use Rattle.std.specs.Prelude.{◌≡◌};

use crate::hidden::hidden_name;
use crate::refusals::parsed;
use crate::state::State;
use gfs_types::ids::Moment;
use gfs_types::lists::Text;
use gfs_types::no_memory::NoMemory;
use gfs_types::path::{Path, PathFault};
use namespace::name_kind::NameKind;
use namespace::node::NameNode;
use std::alloc::Allocator;

impl<A: Allocator + Clone> State<A> {
    /// Whether a name finds room: it is put there and taken out again. What is no path finds none. NoMemory: the text could not be
    /// copied. Changes nothing.
    pub fn has_room(&mut self, path: &Text) -> Result<bool, NoMemory>
        ensures { self.new ≡ self.old }
    {
        match Path::parse(self.alloc, path.as_str()) {
            Ok(path) => Ok(self.has_room_at(&path)),
            Err(PathFault::BadPath) => Ok(false),
            Err(PathFault::NoMemory) => Err(NoMemory),
        }
    }

    /// The same for the hidden name that the file at a path would get. Where no file stands, none is needed.
    pub fn has_room_to_hide(&mut self, path: &Text, moment: Moment) -> Result<bool, NoMemory>
        ensures { self.new ≡ self.old }
    {
        let path = match parsed(self.alloc, path)? {
            Some(path) => path,
            None => return Ok(true),
        };
        let Some(node) = self.names.get(&path) else {
            return Ok(true);
        };
        let NameKind::File(file) = node.kind() else {
            return Ok(true);
        };
        let hidden = Text::new(hidden_name(self.alloc, moment, file)?);
        self.has_room(&hidden)
    }

    #[tactic(auto, using(crate::proofs::Trials::put_and_taken))]
    fn has_room_at(&mut self, path: &Path) -> bool
        ensures { self.new ≡ self.old }
    {
        if self.names.get(path).is_some() {
            return true;
        }
        match self.names.insert(path, NameNode::dir()) {
            Ok(()) => {
                self.names.remove(path);
                true
            }
            Err(_) => false,
        }
    }
}

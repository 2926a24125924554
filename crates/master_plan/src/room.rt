//! Whether the names have room for what a call would add (section 4.1).

ghost use Rattle.std.specs.Prelude.{◌≡◌};

use crate::plan::Plan;
use gfs_types::ids::Moment;
use gfs_types::lists::Text;
use gfs_types::no_memory::NoMemory;
use gfs_types::path::Path;
use master_replay::room::has_room_to_copy;
use master_waiting::fault::PlanFault;
use std::alloc::Allocator;

impl<A: Allocator + Clone> Plan<A> {
    /// Whether a name finds room. Changes nothing.
    pub fn has_room(&mut self, path: &Text) -> Result<bool, NoMemory>
        ensures { self.new ≡ self.old }
    {
        self.state.has_room(path)
    }

    /// Whether the hidden name of a deleted file finds room. Changes nothing.
    pub fn has_room_to_hide(&mut self, path: &Text, moment: Moment) -> Result<bool, NoMemory>
        ensures { self.new ≡ self.old }
    {
        self.state.has_room_to_hide(path, moment)
    }

    /// Whether all names of a copy find room. Changes nothing.
    pub fn has_room_to_copy(&mut self, from: &Path, to: &Path) -> Result<bool, PlanFault>
        ensures { self.new ≡ self.old }
    {
        let found = has_room_to_copy(&mut self.state, from, to)?;
        Ok(found)
    }
}

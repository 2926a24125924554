//! What a cell asks of its master.

ghost use Rattle.std.specs.Prelude.{◌≡◌, ◌≤◌, List, ℕ, [], true, option_map, option_and_then};
ghost use Rattle.std.specs.Option.{option_copied};
ghost use Rattle.std.specs.FinMap as table;
ghost use Rattle.server_cell.specs.Inputs.{input_of};
ghost use Rattle.protocol.specs.Conforms.{MasterSteps, MasterRestarts};
ghost use Rattle.protocol.specs.Master.{MasterState, stopped_master};
ghost use Rattle.protocol.specs.Sending.{file_id, handle_of};
ghost use Rattle.protocol.specs.Tables.{Table, element_at, moment_limit};
ghost use Rattle.protocol.specs.World.{files_seen};
ghost use Rattle.cell_world.specs.FileNames.{file_in};

use gfs_types::ids::{FileId, Handle, Moment};
use gfs_types::path::Path;
use gfs_types::torn::Torn;
use messages::event::StepOut;
use messages::message::Message;
use protocol::step_outcome::Outcome;

/// A master, and the chunks of all files as they stood when it was last up.
pub trait CellMaster {
    ghost state: { Self → MasterState };

    ghost files: { Self → Table (List ℕ) };

    /// Whether it is up. One that is down takes no step.
    fn is_up(&self) -> bool
        ensures { result ≡ (state self.now).up };

    /// The file that a path names, while it is up.
    fn file(&self, path: &Path) -> Option<FileId>
        ensures { result ≡ option_map file_id (file_in (state self.now) path.now) };

    /// The handle of a file's chunk of this index, from 0, as it stood when it was last up.
    fn handle_at(&self, file: FileId, index: u64) -> Option<Handle>
        ensures { result ≡ option_map handle_of (option_and_then (λ handles. element_at handles index) (table.get (files self.now) file.0)) };

    /// It is put down in a step, before it changed anything. Takes no memory.
    fn stop(&mut self)
        requires { (state self.old).up ≡ true }
        ensures state { state self.new ≡ stopped_master (state self.old) (state self.old).disk [] }
        ensures files { files self.new ≡ files self.old };

    /// A step on a message, or on a tick.
    fn step(&mut self, now: Moment, message: Option<&Message>) -> Outcome
        requires { now.0 ≤ moment_limit }
        ensures steps { MasterSteps (state self.old) now.0 (input_of (option_copied message.entry)) result.out result.seen (state self.new) }
        ensures files { files self.new ≡ files_seen (state self.new) (files self.old) };
}

/// A master that begins again in its place.
pub trait RestartedMaster: CellMaster {
    /// It begins again, whether it was up or down.
    fn restart(&mut self, now: Moment) -> StepOut
        requires { now.0 ≤ moment_limit }
        ensures steps { MasterRestarts (Self.state self.old) now.0 result (Self.state self.new) }
        ensures files { Self.files self.new ≡ files_seen (Self.state self.new) (Self.files self.old) };
}

/// A master whose disk a script stops.
pub trait StoppableMaster: RestartedMaster {
    /// Its disk lets so many calls pass and fails each later one until its restart, which finds what was under way as `torn` says.
    /// That of a master that is down does so once its restart has begun.
    fn fuse(&mut self, calls: u64, torn: Torn)
        ensures state { Self.state self.new ≡ Self.state self.old }
        ensures files { Self.files self.new ≡ Self.files self.old };
}

//! The files and chunks that waiting snapshots are about: found once, and kept while records follow (section 3.4).

ghost use Rattle.std.specs.Prelude.{◌≡◌, IfOk};
ghost use Rattle.protocol.specs.MasterSnapshots.{waits_for};
ghost use Rattle.master_plan.specs.Plans.{known};

use crate::plan::Plan;
use gfs_types::ids::Handle;
use master_waiting::fault::PlanFault;
use master_waiting::waiting_concerned::{chunks_of_all, files_of_all, has};
use std::alloc::Allocator;

impl<A: Allocator + Clone> Plan<A> {
    /// Whether a snapshot waits for this chunk. The names are gone over once: what was found is known until a record may change it
    /// otherwise than by a chunk at a file's end, or a snapshot comes or goes.
    pub fn waits_for(&mut self, handle: Handle) -> Result<bool, PlanFault>
        ensures answer { IfOk result (λ b. b ≡ waits_for (known self.old) handle.0) }
        ensures same { self.new ≡ self.old }
    {
        if self.knows_concerned {
            return Ok(has(&self.concerned_chunks, handle.0));
        }
        if self.snapshots.is_empty() {
            return Ok(false);
        }
        let files = files_of_all(&self.state, self.snapshots.as_slice())?;
        let chunks = chunks_of_all(&self.state, self.snapshots.as_slice())?;
        let waits = has(&chunks, handle.0);
        self.concerned_files = files;
        self.concerned_chunks = chunks;
        self.knows_concerned = true;
        Ok(waits)
    }
}

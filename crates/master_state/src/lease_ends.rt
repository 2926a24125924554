//! The ends of leases, and what a restart makes of the chunks (section 3.1).

ghost use Rattle.std.specs.Prelude.{◌≡◌, ℕ, ◌+◌};
ghost use Rattle.chunk_table.specs.ChunkTable.{set_end, known_shape, row_restarted};
ghost use Rattle.protocol.specs.Tables.{map_values};
ghost use Rattle.gfs_types.specs.declared.config.Config.{Config};
ghost use Rattle.gfs_types.specs.Shapes.{usual_shape};
ghost use Rattle.protocol.specs.MasterStep.{as_restarted};
ghost use Rattle.leases.specs.LeaseEnds.{extended};
ghost use Rattle.master_state.specs.Follows.{table_of};

use crate::state::State;
use chunk_table::table::Table;
use gfs_types::ids::{FileId, Handle, Moment};
use gfs_types::shape::Shape;
use leases::master::extend;
use std::alloc::Allocator;

impl<A: Allocator + Clone> State<A> {
    /// A chunk's lease ends at this moment; 0 ends it. Nothing changes where there is no such chunk. Takes no memory.
    pub fn set_lease_end(&mut self, handle: Handle, moment: Moment)
        ensures { self.new ≡ record self.old { table = set_end self.old.table handle.0 moment.0 } }
    {
        self.table.set_end(handle, moment);
    }

    /// The end of a lease that has not ended moves to `now + lease_ms` milliseconds, where that is later; else nothing changes. Takes no
    /// memory.
    #[tactic(auto, using(crate::proofs::Extended::counters_stay))]
    pub fn extend_lease(&mut self, handle: Handle, now: Moment, lease_ms: u64)
        ensures { self.new ≡ record self.old { table = (extended (table_of self.old) handle.0 now.0 lease_ms).table } }
    {
        extend(&mut self.table, handle, now, lease_ms);
    }

    /// What a restart makes of the state: the lease of each chunk that was ever granted ends at this moment, and a shape that the log
    /// didn't tell is the usual one. Takes no memory.
    pub fn restart(&mut self, until: Moment, usual: Shape)
        ensures { (config : Config) (now : ℕ) → now + config.skew_ms + config.lease_ms ≡ until.0 → usual_shape config ≡ usual → self.new ≡ as_restarted config now self.old }
    {
        know_each(&mut self.table, usual);
        restart_each(&mut self.table, until, usual);
    }
}

fn know_each(table: &mut Table, usual: Shape)
    ensures { table.new ≡ record table.old { table = record table.old.table { shapes = map_values (known_shape usual) table.old.table.shapes } } }
{
    table.is_sound();
    for number in 0..table.next_file().0 {
        table.know_shape(FileId(number), usual);
    }
}

fn restart_each(table: &mut Table, until: Moment, usual: Shape)
    ensures { table.new ≡ record table.old { table = record table.old.table { chunks = map_values (row_restarted until.0 usual) table.old.table.chunks } } }
{
    table.is_sound();
    for number in 0..table.next_handle().0 {
        table.restart_chunk(Handle(number), until, usual);
    }
}

//! The replay of records.

ghost use Rattle.std.specs.Prelude.{◌≡◌, true, OnOk, IsErrOf, IsTrue, IsFalse};
ghost use Rattle.protocol.specs.Logged.{after_record};
ghost use Rattle.master_state.specs.Follows.{follows};
ghost use Rattle.master_state.specs.declared.fault.ReplayFault.TheVariants.{Damaged};
ghost use Rattle.master_replay.specs.Items.{is_item};
ghost use Rattle.master_replay.specs.Sharing.{SharesClosed};

use crate::expired::expire;
use crate::snapshots::{replay_snapshot, take_snapshot};
use gfs_types::ids::Moment;
use log_records::record::Record;
use master_state::fault::ReplayFault;
use master_state::state::State;
use std::alloc::Allocator;

/// The state after a record or an item. Damaged: no master writes it here.
pub fn replay<A: Allocator + Clone>(state: &mut State<A>, entry: &Record) -> Result<(), ReplayFault>
    ensures ok { OnOk result (state.new ≡ after_record state.old entry.now) }
    ensures follows { OnOk result (IsTrue (follows state.old entry.now)) }
    ensures damaged { IsErrOf result Damaged → IsFalse (follows state.old entry.now) }
{
    match entry {
        Record::Epoch { epoch } => {
            state.begin_epoch(*epoch);
            Ok(())
        }
        Record::Mkdir { client, call, path } => state.mkdir(*client, *call, path),
        Record::Rmdir { client, call, path } => state.rmdir(*client, *call, path),
        Record::Create {
            client,
            call,
            file,
            shape,
            path,
        } => state.create(*client, *call, *file, *shape, path),
        Record::Delete {
            client,
            call,
            moment,
            path,
        } => state.delete(*client, *call, *moment, path),
        Record::Rename {
            client,
            call,
            from,
            to,
        } => state.rename(*client, *call, from, to),
        Record::Snapshot {
            client,
            call,
            from,
            to,
        } => replay_snapshot(state, *client, *call, from, to),
        Record::Expired { file } => expire(state, *file),
        Record::Refused {
            client,
            call,
            refusal,
        } => Ok(state.keep_refused(*client, *call, *refusal)?),
        Record::AddChunk { file, handle } => state.add_chunk(*file, *handle),
        Record::Issue { handle, version } => state.issue(*handle, *version),
        Record::Grant {
            handle,
            version,
            primary,
            members,
        } => state.grant(*handle, *version, *primary, members),
        Record::CopyStart {
            file,
            index,
            handle,
            copy,
            copy_version,
        } => state.start_copy(*file, *index, *handle, *copy, *copy_version),
        other => replay_item(state, other),
    }
}

/// The state after a record that is made at a moment: a Snapshot shares only chunks whose leases have ended by then. Damaged: one has
/// not, or no master writes the record here.
pub fn replay_at<A: Allocator + Clone>(
    state: &mut State<A>,
    entry: &Record,
    now: Moment,
) -> Result<(), ReplayFault>
    ensures ok { OnOk result (state.new ≡ after_record state.old entry.now) }
    ensures closed { OnOk result (SharesClosed state.old entry.now now.0) }
{
    match entry {
        Record::Snapshot {
            client,
            call,
            from,
            to,
        } => take_snapshot(state, *client, *call, from, to, now),
        other => replay(state, other),
    }
}

// The state after an item.
fn replay_item<A: Allocator + Clone>(state: &mut State<A>, item: &Record) -> Result<(), ReplayFault>
    requires { is_item item.now ≡ true }
    ensures ok { OnOk result (state.new ≡ after_record state.old item.now) }
    ensures follows { OnOk result (IsTrue (follows state.old item.now)) }
    ensures damaged { IsErrOf result Damaged → IsFalse (follows state.old item.now) }
{
    match item {
        Record::Counters {
            next_file,
            next_handle,
            epoch,
        } => state.put_counters(*next_file, *next_handle, *epoch),
        Record::DirItem { path } => state.put_dir_item(path),
        Record::FileItem {
            path,
            file,
            shape,
            handles,
        } => state.put_file_item(path, *file, *shape, handles),
        Record::ChunkItem {
            handle,
            granted,
            issued,
            primary,
            members,
        } => state.put_chunk_item(*handle, *granted, *issued, *primary, members),
        Record::ClientItem {
            client,
            call,
            refusal,
        } => Ok(state.keep(*client, *call, *refusal)?),
        _ => unreachable!(),
    }
}

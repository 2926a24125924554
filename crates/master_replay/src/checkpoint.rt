//! A checkpoint of the state (section 2.6.3).

ghost use Rattle.std.specs.Prelude.{◌≡◌, ◌∷◌, [], ◌++◌, map, IfOk, OnOk};
ghost use Rattle.std.specs.FinMap as finite;
ghost use Rattle.log_records.specs.declared.record.Record.TheVariants as log;
ghost use Rattle.chunk_table.specs.ChunkTable.{chunk_of, handles_of};
ghost use Rattle.protocol.specs.Sending.{file_id, handle_of};
ghost use Rattle.protocol.specs.Logged.{client_item, name_item, checkpoint_of};
ghost use Rattle.master_replay.specs.Checkpoints.{owned_items, items_at};

use chunk_table::table::Table;
use gfs_types::ids::{ClientId, FileId, Handle};
use gfs_types::lists::HandleList;
use gfs_types::no_memory::NoMemory;
use log_records::record::Record;
use master_state::kept::KeptCall;
use master_state::state::State;
use namespace::name_kind::NameKind;
use namespace::node::NameNode;
use ordered_map::OrderedMap;
use path_trie::child::Child;
use std::alloc::{Allocator, Global};

/// The items of a checkpoint: counters, names in the order of their bytes, the chunks that files own by handle, and clients.
pub fn checkpoint_items<A: Allocator + Clone>(state: &State<A>) -> Result<Vec<Record>, NoMemory>
    ensures { IfOk result (λ items. items.items ≡ checkpoint_of state.now) }
{
    let alloc = state.alloc();
    let mut items = Vec::new(alloc);
    items.push(counters(state))?;
    let names = state.names().entries(alloc)?;
    push_names(&mut items, alloc, names, state.table())?;
    push_chunks(&mut items, alloc, state.table())?;
    push_clients(&mut items, state.kept_calls())?;
    Ok(items)
}

// The item of the counters.
fn counters<A: Allocator + Clone>(state: &State<A>) -> Record
    ensures { result ≡ log.Counters (file_id state.now.next_file) (handle_of state.now.next_handle) state.now.epoch }
{
    Record::Counters {
        next_file: state.table().next_file(),
        next_handle: state.table().next_handle(),
        epoch: state.epoch(),
    }
}

// Adds the items of these names.
fn push_names(
    items: &mut Vec<Record>,
    alloc: Global,
    names: Vec<Child<'_, NameNode>>,
    table: &Table,
) -> Result<(), NoMemory>
    ensures { OnOk result (items.new.items ≡ items.old.items ++ map (name_item table.now.table) names.entry.items) }
{
    for name in names {
        items.push(name_item(alloc, name, table)?)?;
    }
    Ok(())
}

// The item of a name.
fn name_item(alloc: Global, name: Child<'_, NameNode>, table: &Table) -> Result<Record, NoMemory>
    ensures { IfOk result (λ item. item ≡ name_item table.now.table name.entry) }
{
    let kind = name.value().kind();
    let path = name.into_name();
    match kind {
        NameKind::Dir => Ok(Record::DirItem { path }),
        NameKind::File(file) => Ok(Record::FileItem {
            path,
            file,
            shape: Some(table.shape(file)),
            handles: handles_of(alloc, table, file)?,
        }),
    }
}

// The handles of a file's chunks; none where there is no such file.
fn handles_of(alloc: Global, table: &Table, file: FileId) -> Result<HandleList, NoMemory>
    ensures { IfOk result (λ handles. handles ≡ handles_of table.now.table file.0) }
{
    match table.file(file) {
        Some(handles) => handles.copy(alloc),
        None => Ok(HandleList::empty(alloc)),
    }
}

// Adds the items of the chunks that files own, in the order of their handles.
fn push_chunks(items: &mut Vec<Record>, alloc: Global, table: &Table) -> Result<(), NoMemory>
    ensures { OnOk result (items.new.items ≡ items.old.items ++ owned_items (finite.entries table.now.table.chunks)) }
{
    table.is_sound();
    for number in 0..table.next_handle().0 {
        push_chunk(items, alloc, table, Handle(number))?;
    }
    Ok(())
}

// Adds the item of a chunk, where there is one and files own it.
fn push_chunk(
    items: &mut Vec<Record>,
    alloc: Global,
    table: &Table,
    handle: Handle,
) -> Result<(), NoMemory>
    ensures { OnOk result (items.new.items ≡ items.old.items ++ items_at handle.0 (chunk_of table.now.table handle.0)) }
{
    let Some(chunk) = table.chunk(handle) else {
        return Ok(());
    };
    if chunk.references() == 0 {
        return Ok(());
    }
    items.push(Record::ChunkItem {
        handle,
        granted: chunk.granted(),
        issued: chunk.issued(),
        primary: chunk.primary(),
        members: chunk.members().copy(alloc)?,
    })?;
    Ok(())
}

// Adds the items of the clients' last calls.
fn push_clients(items: &mut Vec<Record>, kept: &OrderedMap<KeptCall>) -> Result<(), NoMemory>
    ensures { OnOk result (items.new.items ≡ items.old.items ++ map client_item (finite.entries kept.now)) }
{
    for (client, call) in kept.iter() {
        items.push(Record::ClientItem {
            client: ClientId(*client),
            call: call.number(),
            refusal: call.refusal(),
        })?;
    }
    Ok(())
}

//! Records and items.

use gfs_types::ids::{ClientId, FileId, Handle, ServerId, Version};
use gfs_types::lists::{HandleList, ServerList, Text};
use gfs_types::no_memory::NoMemory;
use gfs_types::refusal::Refusal;
use gfs_types::shape::Shape;
use log_records::record::Record;
use std::alloc::Global;

pub(crate) fn text_of(alloc: Global, given: &str) -> Result<Text, NoMemory> {
    Text::from_str(given, alloc)
}

pub(crate) fn two_servers(alloc: Global) -> Result<ServerList, NoMemory> {
    let mut list = ServerList::empty(alloc);
    list.push(1)?;
    list.push(258)?;
    Ok(list)
}

pub(crate) fn two_handles(alloc: Global) -> Result<HandleList, NoMemory> {
    let mut list = HandleList::empty(alloc);
    list.push(7)?;
    list.push(8)?;
    Ok(list)
}

/// A Create by client 1, its call 1, of file 1, with the path `/a`.
pub(crate) fn create(alloc: Global, shape: Option<Shape>) -> Result<Record, NoMemory> {
    Ok(Record::Create {
        client: ClientId(1),
        call: 1,
        file: FileId(1),
        shape,
        path: text_of(alloc, "/a")?,
    })
}

pub(crate) fn grant(alloc: Global) -> Result<Record, NoMemory> {
    Ok(Record::Grant {
        handle: Handle(5),
        version: Version(6),
        primary: ServerId(1),
        members: two_servers(alloc)?,
    })
}

pub(crate) fn copy_start() -> Record {
    Record::CopyStart {
        file: FileId(1),
        index: 2,
        handle: Handle(3),
        copy: Handle(4),
        copy_version: Version(5),
    }
}

pub(crate) fn file_item(alloc: Global, shape: Option<Shape>) -> Result<Record, NoMemory> {
    Ok(Record::FileItem {
        path: text_of(alloc, "/f")?,
        file: FileId(3),
        shape,
        handles: two_handles(alloc)?,
    })
}

pub(crate) fn client_item(refusal: Option<Refusal>) -> Record {
    Record::ClientItem {
        client: ClientId(1),
        call: 9,
        refusal,
    }
}

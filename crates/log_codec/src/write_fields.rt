//! Fields, written at the end of bytes.

ghost use Rattle.std.specs.Prelude.{◌≡◌, ◌++◌, ◌<◌, ◌^◌, length, IsTrue, OnOk};
ghost use Rattle.gfs_types.specs.Paths.{is_path};
ghost use Rattle.log_codec.specs.Fields.{handles, index, members, number, outcome, path, server, shape, AreHandles, AreMembers, IsIndex, IsNumber, IsPath, IsServer, IsShape};

use gfs_types::lists::{HandleList, ServerList, Text};
use gfs_types::no_memory::NoMemory;
use gfs_types::refusal::Refusal;
use gfs_types::shape::Shape;

#[tactic(auto, unfolding(crate::specs::Fields::number))]
pub fn put_u64(out: &mut Vec<u8>, value: u64) -> Result<(), NoMemory>
    ensures bytes { OnOk result (out.new.items ≡ out.old.items ++ number value) }
    ensures range { IsNumber value }
{
    out.extend_from_slice(&value.to_le_bytes())?;
    Ok(())
}

#[tactic(auto, unfolding(crate::specs::Fields::index))]
pub fn put_u32(out: &mut Vec<u8>, value: u32) -> Result<(), NoMemory>
    ensures bytes { OnOk result (out.new.items ≡ out.old.items ++ index value) }
    ensures range { IsIndex value }
{
    out.extend_from_slice(&value.to_le_bytes())?;
    Ok(())
}

#[tactic(auto, unfolding(crate::specs::Fields::server))]
pub fn put_u16(out: &mut Vec<u8>, value: u16) -> Result<(), NoMemory>
    ensures bytes { OnOk result (out.new.items ≡ out.old.items ++ server value) }
    ensures range { IsServer value }
{
    out.extend_from_slice(&value.to_le_bytes())?;
    Ok(())
}

fn text_of(text: &Text) -> &str
    requires { IsTrue (is_path text.now) }
    ensures text { result.now ≡ text.now }
    ensures utf8 { IsPath text.now }
{
    text.as_str()
}

#[tactic(auto, unfolding(crate::specs::Fields::path), using(crate::proofs::Lists::path_is_short))]
pub fn put_path(out: &mut Vec<u8>, text: &Text) -> Result<(), NoMemory>
    requires { IsTrue (is_path text.now) }
    ensures bytes { OnOk result (out.new.items ≡ out.old.items ++ path text.now) }
    ensures text { IsPath text.now }
{
    let text = text_of(text);
    out.extend_from_slice(&(text.len() as u16).to_le_bytes())?;
    out.extend_from_slice(text.as_bytes())?;
    Ok(())
}

#[tactic(auto, unfolding(crate::specs::Fields::members))]
pub fn put_servers(out: &mut Vec<u8>, servers: &ServerList) -> Result<(), NoMemory>
    requires { length servers.now < 256 }
    ensures bytes { OnOk result (out.new.items ≡ out.old.items ++ members servers.now) }
    ensures each { AreMembers servers.now }
{
    let servers = servers.as_slice();
    out.push(servers.len() as u8)?;
    for server in servers {
        put_u16(out, *server)?;
    }
    Ok(())
}

#[tactic(auto, unfolding(crate::specs::Fields::handles))]
pub fn put_handles(out: &mut Vec<u8>, chunks: &HandleList) -> Result<(), NoMemory>
    requires { length chunks.now < 2 ^ 32 }
    ensures bytes { OnOk result (out.new.items ≡ out.old.items ++ handles chunks.now) }
    ensures each { AreHandles chunks.now }
{
    let chunks = chunks.as_slice();
    put_u32(out, chunks.len() as u32)?;
    for handle in chunks {
        put_u64(out, *handle)?;
    }
    Ok(())
}

#[tactic(auto, unfolding(crate::specs::Fields::shape))]
pub fn put_shape(out: &mut Vec<u8>, told: Shape) -> Result<(), NoMemory>
    ensures bytes { OnOk result (out.new.items ≡ out.old.items ++ shape told) }
    ensures range { IsShape told }
{
    put_u32(out, told.chunk)?;
    out.push(told.goal)?;
    Ok(())
}

pub fn put_outcome(out: &mut Vec<u8>, refusal: Option<Refusal>) -> Result<(), NoMemory>
    ensures { OnOk result (out.new.items ≡ out.old.items ++ outcome refusal) }
{
    match refusal {
        None => out.push(0)?,
        Some(refusal) => out.push(refusal.number())?,
    }
    Ok(())
}

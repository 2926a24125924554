//! Records that a reader knows by themselves: a mark, an id, and a seal, which is the beginning of the digest of what stands before it.

ghost use Rattle.std.specs.Prelude.{◌≡◌, ◌≤◌, ◌++◌, ℕ, List, Some, length, take, IfOk, OnOk, true};
ghost use Rattle.sha2.specs.Sha256.{sha256};
ghost use Rattle.embedded_cell.specs.Records.{id_of, is_record, is_sealed, StandsAt};

use sha2::{Digest, Sha256};
use std::alloc::{AllocError, Global};

/// The bytes of a record.
pub const SIZE: usize = 9;

const MARK: u8 = 0xf5;

/// Bytes before the seal, and of it.
const HEAD: usize = 5;

const SEAL: usize = 4;

/// The record of an id.
pub fn encode(alloc: Global, id: u32) -> Result<Vec<u8>, AllocError>
    ensures is { IfOk result (λ one. is_record one.items ≡ true) }
    ensures id { IfOk result (λ one. id_of one.items ≡ id) }
{
    let mut bytes = Vec::new(alloc);
    bytes.push(MARK)?;
    put(&mut bytes, &id.to_be_bytes())?;
    seal(&mut bytes)?;
    Ok(bytes)
}

fn put(bytes: &mut Vec<u8>, more: &[u8]) -> Result<(), AllocError>
    ensures { OnOk result (bytes.new.items ≡ bytes.old.items ++ more.now) }
{
    bytes.extend_from_slice(more)?;
    Ok(())
}

// Adds the first bytes of the digest of what is there.
fn seal(bytes: &mut Vec<u8>) -> Result<(), AllocError>
    ensures { OnOk result (bytes.new.items ≡ bytes.old.items ++ take 4 (sha256 bytes.old.items)) }
{
    let digest = Sha256::digest(bytes.as_slice());
    put(bytes, &digest[..SEAL])
}

// Whether the bytes behind the first five are the first ones of the digest of these.
fn is_sealed(bytes: &[u8]) -> bool
    requires { 5 ≤ length bytes.now }
    ensures { result ≡ is_sealed bytes.now }
{
    let digest = Sha256::digest(&bytes[..HEAD]);
    let seal: &[u8] = &digest[..SEAL];
    seal == &bytes[HEAD..]
}

fn is_record(bytes: &[u8]) -> bool
    ensures { result ≡ is_record bytes.now }
{
    bytes.len() == SIZE && bytes[0] == MARK && is_sealed(bytes)
}

fn id_of(bytes: &[u8]) -> u32
    requires { 5 ≤ length bytes.now }
    ensures { result ≡ id_of bytes.now }
{
    u32::from_be_bytes([bytes[1], bytes[2], bytes[3], bytes[4]])
}

/// The id of the record that stands at a place of these bytes, if one does.
pub fn record_at(bytes: &[u8], place: usize) -> Option<u32>
    requires { place ≤ length bytes.now }
    ensures { (one : List ℕ) → StandsAt bytes.now place one → result ≡ Some (id_of one) }
{
    let rest = &bytes[place..];
    if rest.len() < SIZE {
        return None;
    }
    let one = &rest[..SIZE];
    if !is_record(one) {
        return None;
    }
    Some(id_of(one))
}

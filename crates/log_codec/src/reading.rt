//! A record or an item, read from its bytes.

ghost use Rattle.std.specs.Prelude.{◌≡◌, Some, IfOk};
ghost use Rattle.log_codec.specs.Payloads.{payload, IsRecord};
ghost use Rattle.log_codec.specs.Reading.{Gives};
ghost use Rattle.log_codec.specs.Records.{record_in, record_tagged};

use crate::fault::DecodeFault;
use crate::read_chunks::{add_chunk, copy_start, expired, grant, issue};
use crate::read_items::{chunk, client, counters, dir, file, shaped_file};
use crate::read_names::{
    create, delete, epoch, mkdir, refused, rename, rmdir, shaped_create, snapshot,
};
use log_records::record::Record;
use std::alloc::Global;

#[tactic(auto, unfolding(crate::specs::Records::record_tagged))]
fn tagged(tag: u8, rest: &[u8], alloc: Global) -> Result<Record, DecodeFault>
    ensures { Gives (λ r. r) result (record_tagged tag rest.now) }
{
    match tag {
        1 => epoch(rest),
        2 => mkdir(rest, alloc),
        3 => rmdir(rest, alloc),
        4 => create(rest, alloc),
        5 => delete(rest, alloc),
        6 => rename(rest, alloc),
        7 => snapshot(rest, alloc),
        8 => refused(rest),
        9 => expired(rest),
        10 => add_chunk(rest),
        11 => issue(rest),
        12 => grant(rest, alloc),
        13 => copy_start(rest),
        15 => shaped_create(rest, alloc),
        20 => counters(rest),
        21 => dir(rest, alloc),
        22 => file(rest, alloc),
        23 => chunk(rest, alloc),
        24 => client(rest),
        25 => shaped_file(rest, alloc),
        _ => Err(DecodeFault::Damaged),
    }
}

#[tactic(auto, unfolding(crate::specs::Records::record_in))]
fn whole(alloc: Global, bytes: &[u8]) -> Result<Record, DecodeFault>
    ensures { Gives (λ r. r) result (record_in bytes.now) }
{
    match bytes {
        [] => Err(DecodeFault::Damaged),
        [tag, rest @ ..] => tagged(*tag, rest, alloc),
    }
}

/// The record or item whose bytes these are, all of them.
///
/// `Damaged`: they are no record's. `NoMemory`: an allocator refused what the record needs. Neither leaves anything.
pub fn decode(alloc: Global, bytes: &[u8]) -> Result<Record, DecodeFault>
    // What is read has these bytes.
    ensures found { IfOk result (λ r. IsRecord r × (bytes.now ≡ payload r)) }
    // What has these bytes is read, unless memory runs out.
    ensures only { (r : Record) → IsRecord r → bytes.now ≡ payload r → Gives (λ x. x) result (Some r) }
    ensures exact { Gives (λ r. r) result (record_in bytes.now) }
{
    whole(alloc, bytes)
}

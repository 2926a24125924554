//! The callers of the pages `CALLING.md` of `chunk_table`, `leases`, `primary_order`, `record_append` and `ordered_map`.

ghost use Rattle.std.specs.Prelude.{◌≡◌, ◌↔◌, ℕ, IfNone, IfOk, IfSome, IsErrOf, IsSome, OnOk, OnErr};
ghost use Rattle.std.specs.FinMap as map;
ghost use Rattle.chunk_table.specs.ChunkTable.{chunk_of, row_ended, row_granted, row_issued, with_row_changed};
ghost use Rattle.chunk_table.specs.Refusals.{version_after};
ghost use Rattle.gfs_types.specs.declared.refusal.Refusal.TheVariants.{Exists, NoData};
ghost use Rattle.leases.specs.LeaseHeld.{after_call, counts};
ghost use Rattle.leases.specs.LeaseHeld.HeldCall.{Ask, Extend};
ghost use Rattle.primary_order.specs.PrimaryOrder.{denied, known};
ghost use Rattle.record_append.specs.Placing.{placing};
ghost use Rattle.record_append.specs.declared.placing.Placing.TheVariants.{At};

use chunk_table::fault::TableFault;
use chunk_table::table::Table;
use gfs_types::ids::{ClientId, Handle, Moment, ServerId, Version};
use gfs_types::lists::ServerList;
use gfs_types::no_memory::NoMemory;
use gfs_types::refusal::Refusal;
use leases::held::Held;
use ordered_map::number_map::NumberMap;
use primary_order::answer::Accept;
use primary_order::primary::Primary;
use record_append::place;
use record_append::placing::Placing;

/// Issues the chunk's next version and grants it to a primary and its members, until that moment.
pub fn lease(
    table: &mut Table,
    handle: Handle,
    primary: ServerId,
    members: ServerList,
    until: Moment,
) -> Result<Version, TableFault>
    ensures version { IfOk result (λ version. version.0 ≡ version_after (chunk_of table.old.table handle.0)) }
    ensures granted { IfOk result (λ version. table.new ≡ with_row_changed (with_row_changed (with_row_changed table.old handle.0 (row_issued version.0)) handle.0 (row_granted version.0 primary.0 members)) handle.0 (row_ended until.0)) }
{
    let version = table.issue(handle)?;
    table.grant(handle, version, primary, members)?;
    table.set_end(handle, until);
    Ok(version)
}

/// Moves the lease's end on, and says whether it counts.
pub fn renew(held: &mut Held, until: Moment, now: Moment) -> bool
    ensures after { held.new ≡ after_call (after_call held.old (Extend until.0 now.0)) (Ask now.0) }
    ensures counts { result ≡ counts held.new }
{
    held.extend(until, now);
    held.valid(now)
}

/// Refuses an attempt whose data are not here. A repeat is answered the same from now on, also when its data come.
pub fn refuse_without_data(
    primary: &mut Primary,
    client: ClientId,
    seq: u64,
) -> Result<Option<Accept>, NoMemory>
    ensures kept { OnOk result (primary.new ≡ denied primary.old client seq NoData) }
    ensures answer { IfOk result (λ answer. answer ≡ known (denied primary.old client seq NoData) client seq) }
    ensures refused { OnErr result (primary.new ≡ primary.old) }
{
    primary.deny(client, seq, Refusal::NoData)?;
    Ok(primary.known(client, seq))
}

/// The offset of the record in this chunk, if it fits there.
pub fn fits(length: u64, size: u64, chunk: u64) -> Option<u64>
    ensures at { IfSome result (λ offset. placing length size chunk ≡ At offset) }
    ensures nowhere { IfNone result ((offset : ℕ) → placing length size chunk ≡ At offset → ⊥) }
{
    match place(length, size, chunk) {
        Placing::At(offset) => Some(offset),
        Placing::Pad(_) | Placing::Full | Placing::TooLong => None,
    }
}

/// Puts a value at a number, unless one stands there.
pub fn add(values: &mut NumberMap<u64>, number: u64, value: u64) -> Result<(), Refusal>
    ensures added { OnOk result (values.new ≡ map.insert values.old number value) }
    ensures exists { IsErrOf result Exists ↔ IsSome (map.get values.old number) }
    ensures refused { OnErr result (values.new ≡ values.old) }
{
    if values.get(number).is_some() {
        return Err(Refusal::Exists);
    }
    match values.insert(number, value) {
        Ok(()) => Ok(()),
        Err(_) => Err(Refusal::NoMemory),
    }
}

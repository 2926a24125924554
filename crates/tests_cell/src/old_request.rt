//! A Mutate that a primary gets again behind a later one of its client.

use crate::late_grant::{Wanted, deliver, is_done, is_refused, next_number};
use crate::recorded::record_row;
use crate::rows::Row;
use gfs_types::refusal::Refusal;
use script::script_fault::ScriptFault;
use std::alloc::Global;

/// Two records of one client.
const RECORDS: Row = Row {
    lease_ms: 60_000,
    path: "/f",
    script: "c1 create /f\nc1 open /f\nc1 append 1 a*13\nc1 append 1 b*13\n",
    printed: "c1 done\nc1 fd 1\nc1 at 0\nc1 at 13\n",
};

/// Whether the first record's Mutate is refused as an old one when it comes again, and the second record's, which comes again behind it, is
/// answered as before.
fn is_refused_as_old(alloc: Global) -> Result<bool, ScriptFault> {
    let Some(recorded) = record_row(alloc, &RECORDS)? else {
        return Ok(false);
    };
    let mut cell = recorded;
    let first = next_number(&cell, 0, Wanted::Mutate);
    let second = next_number(&cell, first, Wanted::Mutate);
    deliver(&mut cell, first);
    let is_old = is_refused(&cell, Refusal::OldRequest);
    deliver(&mut cell, second);
    let was_done = is_done(&cell);
    drop(cell);
    Ok(first > 0 && second > 0 && is_old && was_done)
}

#[test]
fn a_request_that_comes_behind_a_later_one_is_old(rt: HostRuntime) {
    assert!(rt; matches!(is_refused_as_old(rt.alloc()), Ok(true)));
}

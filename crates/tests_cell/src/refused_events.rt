//! Lists of events, with one allocation refused.

use crate::recorded::{Recorded, record_row};
use crate::rows::{MISSING_MEMBER, PAD, Row, SNAPSHOT};
use crate::watched::Watched;
use script::script_fault::ScriptFault;
use std::alloc::Global;

/// Whether each record that was answered to stand somewhere is read there, once the events came and all nodes but the clients began again.
fn are_kept(watched: &mut Watched, recorded: &Recorded, row: &Row) -> Result<bool, ScriptFault> {
    watched.take_all(recorded.events.as_slice())?;
    Ok(watched.faults == 0 && is_found(watched, row)?)
}

/// The same on a cell of its own, which has few ways out: a drop at the end of a scope is proved anew at each place.
fn are_kept_anew(alloc: Global, recorded: &Recorded, row: &Row) -> Result<bool, ScriptFault> {
    let mut watched = Watched::new(alloc, row)?;
    let are_kept = are_kept(&mut watched, recorded, row);
    drop(watched);
    are_kept
}

/// The same of the events of a row. None: the script printed something else.
fn keeps_records(alloc: Global, row: &Row) -> Result<Option<bool>, ScriptFault> {
    let Some(recorded) = record_row(alloc, row)? else {
        return Ok(None);
    };
    let are_kept = are_kept_anew(alloc, &recorded, row);
    drop(recorded);
    Ok(Some(are_kept?))
}

/// Whether each record is read, the second time where memory was refused the first time.
fn is_found(watched: &mut Watched, row: &Row) -> Result<bool, ScriptFault> {
    for _ in 0..2 {
        watched.restart_all()?;
        watched.go_on()?;
        if watched.finds_all(row.path)? {
            return Ok(true);
        }
    }
    Ok(false)
}

/// What a list comes to where one allocation may be refused. Where that was one of the script or of the test itself, it is taken again.
fn is_kept(alloc: Global, row: &Row) -> bool {
    match keeps_records(alloc, row) {
        Ok(Some(is_kept)) => is_kept,
        Ok(None) | Err(_) => matches!(keeps_records(alloc, row), Ok(Some(true))),
    }
}

// They pass too where one allocation is refused, whichever that is (`tools/campaigns/refused`).
#[test]
fn a_refused_allocation_loses_no_record_that_fills_a_chunk(rt: HostRuntime) {
    assert!(rt; is_kept(rt.alloc(), &PAD));
}

#[test]
fn a_refused_allocation_loses_no_record_beside_a_snapshot(rt: HostRuntime) {
    assert!(rt; is_kept(rt.alloc(), &SNAPSHOT));
}

#[test]
fn a_refused_allocation_loses_no_record_without_a_member(rt: HostRuntime) {
    assert!(rt; is_kept(rt.alloc(), &MISSING_MEMBER));
}

//! A restart of the master after each event of a list in turn.

use crate::recorded::{Recorded, record_row};
use crate::rows::{CUT_PRIMARY, LOST_FORWARD, PAD, Row, SNAPSHOT};
use crate::watched::Watched;
use gfs_types::ids::Node;
use script::script_fault::ScriptFault;
use std::alloc::Global;

/// How many records were answered to stand somewhere where the master begins again after so many events. None: an append has no answer,
/// or one that none may have, two records are to stand at one place, or one isn't read back.
fn records_of(
    row: &Row,
    recorded: &Recorded,
    place: usize,
    watched: &mut Watched,
) -> Result<Option<usize>, ScriptFault> {
    let (before, after) = recorded
        .events
        .as_slice()
        .split_at(place.min(recorded.events.len()));
    watched.take_all(before)?;
    watched.restart(Node::Master)?;
    watched.take_all(after)?;
    let is_over = watched.go_on()?;
    let count = watched.count();
    let are_found = watched.finds_all(row.path)?;
    Ok(if is_over && are_found && watched.faults == 0 && watched.lost == 0 {
        Some(count)
    } else {
        None
    })
}

/// The same on a cell of its own, which has few ways out: a drop at the end of a scope is proved anew at each place.
fn records_over(
    alloc: Global,
    row: &Row,
    recorded: &Recorded,
    place: usize,
) -> Result<Option<usize>, ScriptFault> {
    let mut watched = Watched::new(alloc, row)?;
    let count = records_of(row, recorded, place, &mut watched);
    drop(watched);
    count
}

/// The sum of these counts over restarts after each event in turn, or the first place at which something is wrong.
fn sum_of_records(
    alloc: Global,
    row: &Row,
    recorded: &Recorded,
) -> Result<Result<usize, usize>, ScriptFault> {
    let mut count: usize = 0;
    for place in 0..=recorded.events.len() {
        match records_over(alloc, row, recorded, place)? {
            Some(found) => count = count.saturating_add(found),
            None => return Ok(Err(place)),
        }
    }
    Ok(Ok(count))
}

/// The same of the events of a row.
fn records_over_all(alloc: Global, row: &Row) -> Result<Result<usize, usize>, ScriptFault> {
    match record_row(alloc, row)? {
        Some(recorded) => {
            let count = sum_of_records(alloc, row, &recorded);
            drop(recorded);
            count
        }
        None => Ok(Err(0)),
    }
}

#[test]
fn records_that_fill_a_chunk_outlast_a_restart(rt: HostRuntime) {
    assert!(rt; matches!(records_over_all(rt.alloc(), &PAD), Ok(Ok(1..))));
}

#[test]
fn a_record_over_a_lost_forward_outlasts_a_restart(rt: HostRuntime) {
    assert!(rt; matches!(records_over_all(rt.alloc(), &LOST_FORWARD), Ok(Ok(1..))));
}

#[test]
fn records_over_a_cut_primary_outlast_a_restart(rt: HostRuntime) {
    assert!(rt; matches!(records_over_all(rt.alloc(), &CUT_PRIMARY), Ok(Ok(1..))));
}

#[test]
fn records_beside_a_snapshot_outlast_a_restart(rt: HostRuntime) {
    assert!(rt; matches!(records_over_all(rt.alloc(), &SNAPSHOT), Ok(Ok(1..))));
}

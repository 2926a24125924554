//! The regions of a chunk's order (section 2.7.1 of the Google File System paper).

ghost use Rattle.std.specs.Prelude.{◌≡◌, ◌<◌, ◌^◌, All, IfOk, OnOk};
ghost use Rattle.gfs_types.specs.Mutations as change;
ghost use Rattle.relaxed_file.specs.Order as order;
ghost use Rattle.relaxed_file.specs.Regions as spec;
ghost use Rattle.std.specs.Prelude.{◌-◌, ◌&&◌, ℕ, get_or, if◌then◌else◌, length, nat_le, nat_lt, reverse, true};

use crate::entry::Entry;
use crate::image::{covers, end_of, start_of};
use relaxed_file::region::Region;
use std::alloc::{AllocError, Global};

/// The greatest end of all entries, and 0 where there is none.
pub fn order_length(entries: &[Entry]) -> u64
    requires { All (λ e. change.end_of e.mutation < 2 ^ 64) entries.now }
    ensures { result ≡ order.order_length entries.now }
{
    let mut greatest = 0;
    for entry in entries {
        greatest = greatest.max(end_of(entry.mutation()));
    }
    greatest
}

/// Whether the byte at a place is determined: the last entry that covers it is settled, or none does.
pub fn is_determined(entries: &[Entry], place: u64) -> bool
    requires { All (λ e. change.end_of e.mutation < 2 ^ 64) entries.now }
    ensures { result ≡ spec.is_determined entries.now place }
{
    let mut settled = None;
    for entry in entries {
        if covers(place, entry.mutation()) {
            settled = Some(entry.is_settled());
        }
    }
    settled.unwrap_or(true)
}

/// Overwrites the marks of a range's places, of which some may lie past the last mark.
fn paint(marks: &mut [bool], start: u64, end: u64, settled: bool)
    ensures length { length marks.new ≡ length marks.old }
    ensures marks { (place : ℕ) → place < length marks.old → get_or marks.new place true ≡ if nat_le start place && nat_lt place end then settled else get_or marks.old place true }
{
    for place in start..end.min(marks.len() as u64) {
        marks[place as usize] = settled;
    }
}

/// Whether each place below an end is determined: all are until the entries, in order, overwrite their ranges.
fn marks(alloc: Global, entries: &[Entry], end: u64) -> Result<Vec<bool>, AllocError>
    requires { All (λ e. change.end_of e.mutation < 2 ^ 64) entries.now }
    ensures length { IfOk result (λ marks. length marks.items ≡ end) }
    ensures marks { IfOk result (λ marks. (place : ℕ) → place < end → get_or marks.items place true ≡ spec.is_determined entries.now place) }
{
    let mut marks = vec![in alloc; true; end as usize]?;
    for entry in entries {
        let start = start_of(entry.mutation());
        let end = end_of(entry.mutation());
        paint(&mut marks, start, end, entry.is_settled());
    }
    Ok(marks)
}

/// Puts a place before the regions of those behind it. The first region is the list's last.
fn join_before(regions: &mut Vec<Region>, place: u64, determined: bool) -> Result<(), AllocError>
    requires { place < 2 ^ 64 - 1 }
    ensures { OnOk result (reverse regions.new.items ≡ spec.joined_before place determined (reverse regions.old.items)) }
{
    match regions.pop() {
        None => {}
        Some(first) if first.determined == determined => {
            regions.push(Region {
                from: place,
                ..first
            })?;
            return Ok(());
        }
        Some(first) => regions.push(first)?,
    }
    regions.push(Region {
        from: place,
        to: place + 1,
        determined,
    })?;
    Ok(())
}

/// The maximal ranges of places that are all determined or all undetermined, from the first place to the greatest end of the entries.
pub fn regions(alloc: Global, entries: &[Entry]) -> Result<Vec<Region>, AllocError>
    requires { All (λ e. change.end_of e.mutation < 2 ^ 64) entries.now }
    ensures { IfOk result (λ regions. regions.items ≡ spec.regions_of entries.now) }
{
    let mut regions = Vec::new(alloc);
    let end = order_length(entries);
    let marks = marks(alloc, entries, end)?;
    for passed in 0..end {
        let place = end - 1 - passed;
        join_before(&mut regions, place, marks[place as usize])?;
    }
    regions.reverse();
    Ok(regions)
}

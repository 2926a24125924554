//! A lease as its primary holds it, until 60 with a clock bound of 10: it counts before 50.

use gfs_types::ids::{Moment, Version};
use gfs_types::lists::ServerList;
use leases::held::Held;
use std::alloc::{AllocError, Global};
use std::test::Fail;

fn held_until_60(alloc: Global) -> Result<Held, AllocError> {
    let members = ServerList::new(Vec::from_slice(alloc, &[1u16, 2u16])?);
    Ok(Held::take(Version(3), Moment(60), members, 10))
}

#[test]
fn what_was_granted_is_told(rt: HostRuntime) -> Result<(), Fail> {
    let lease = held_until_60(rt.alloc())?;
    assert!(rt; lease.version() == Version(3));
    assert!(rt; lease.until() == Moment(60));
    let members = lease.members().as_slice();
    assert!(rt; members.len() == 2 && members[0] == 1 && members[1] == 2);
    Ok(())
}

#[test]
fn a_lease_counts_before_its_end_less_the_bound(rt: HostRuntime) -> Result<(), Fail> {
    let mut lease = held_until_60(rt.alloc())?;
    assert!(rt; lease.valid(Moment(49)));
    assert!(rt; !lease.valid(Moment(50)));
    // an earlier moment than the greatest counts as that one
    assert!(rt; !lease.valid(Moment(49)));
    assert!(rt; lease.until() == Moment(60));
    Ok(())
}

#[test]
fn only_a_later_end_moves_it_on(rt: HostRuntime) -> Result<(), Fail> {
    let mut lease = held_until_60(rt.alloc())?;
    lease.extend(Moment(60), Moment(20));
    lease.extend(Moment(59), Moment(20));
    assert!(rt; lease.until() == Moment(60));
    lease.extend(Moment(100), Moment(49));
    assert!(rt; lease.until() == Moment(100));
    assert!(rt; lease.valid(Moment(89)));
    Ok(())
}

#[test]
fn what_no_longer_counts_is_not_moved_on(rt: HostRuntime) -> Result<(), Fail> {
    let mut lease = held_until_60(rt.alloc())?;
    lease.extend(Moment(100), Moment(50));
    assert!(rt; lease.until() == Moment(60));
    assert!(rt; !lease.valid(Moment(50)));
    Ok(())
}

#[test]
fn an_ended_lease_counts_no_more(rt: HostRuntime) -> Result<(), Fail> {
    let mut lease = held_until_60(rt.alloc())?;
    assert!(rt; lease.valid(Moment(0)));
    lease.end();
    assert!(rt; lease.until() == Moment(0));
    assert!(rt; !lease.valid(Moment(0)));
    lease.extend(Moment(100), Moment(1));
    assert!(rt; lease.until() == Moment(0));
    Ok(())
}

//! The order of a primary, once.

use bytes::Bytes;
use gfs_types::ids::{ClientId, Moment, Serial, ServerId, Version};
use gfs_types::lists::ServerList;
use gfs_types::mutation::Mutation;
use leases::held::Held;
use primary_order::answer::Accept;
use primary_order::primary::Primary;
use std::alloc::{AllocError, Global};
use std::process::Abort;
use std::test::Fail;

fn alone(alloc: Global) -> Result<Primary, AllocError> {
    let members = ServerList::new(Vec::from_slice(alloc, &[1u16])?);
    let held = Held::take(Version(1), Moment(60), members, 10);
    Ok(Primary::new(alloc, 64, held))
}

fn settles(rt: &impl Abort, alloc: Global, primary: &mut Primary) {
    let write = Mutation::Write(0, Bytes::from_static(b"x"));
    let taken = primary.accept(alloc, ClientId(1), 2, &write, Moment(10));
    assert!(rt; taken == Ok(Accept::New(Serial(1))));
    assert!(rt; primary.ack(ServerId(1), Serial(1), Moment(11)).is_some());
}

#[test]
fn a_mutation_is_settled_by_its_only_member(rt: HostRuntime) -> Result<(), Fail> {
    let alloc = rt.alloc();
    let mut primary = alone(alloc)?;
    settles(&rt, alloc, &mut primary);
    drop(primary);
    Ok(())
}

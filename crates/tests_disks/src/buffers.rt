//! The buffer: each call once, which data a full buffer drops, and refused memory.

ghost use Rattle.std.specs.Prelude.{◌≡◌, IfOk, OnOk, OnErr};
ghost use Rattle.data_push.specs.Buffers.{with_data};
ghost use Rattle.data_push.specs.NextHop.{next_hop_of};

use bytes::Bytes;
use data_push::{Buffer, next_hop};
use gfs_types::ids::{ClientId, DataId, ServerId};
use linked_list_allocator::LocalHeap;
use std::alloc::{AllocError, Allocator, Global};
use std::test::Fail;

fn id(client: u64, seq: u64) -> DataId {
    DataId {
        client: ClientId(client),
        seq,
    }
}

fn data(text: &'static str) -> Bytes {
    Bytes::from_static(text.as_bytes())
}

// Whether these data are in it.
fn has<A: Allocator + Clone>(buffer: &Buffer<A>, id: DataId, text: &str) -> bool {
    match buffer.get(id) {
        Some(bytes) => are(bytes, text),
        None => false,
    }
}

fn are(bytes: &[u8], text: &str) -> bool {
    bytes == text.as_bytes()
}

// Whether these data are taken out of it. What owns bytes calls `drop`: a drop at the end of a scope is proved anew at each place.
fn is<A: Allocator + Clone>(buffer: &mut Buffer<A>, id: DataId, text: &str) -> bool {
    match buffer.take(id) {
        Some(bytes) => {
            let are_these = are(&bytes, text);
            drop(bytes);
            are_these
        }
        None => false,
    }
}

// Whether there are none to take.
fn lacks<A: Allocator + Clone>(buffer: &mut Buffer<A>, id: DataId) -> bool {
    match buffer.take(id) {
        Some(bytes) => {
            drop(bytes);
            false
        }
        None => true,
    }
}

// Whether the data are put; None where others are handed back.
fn puts<A: Allocator + Clone>(
    buffer: &mut Buffer<A>,
    id: DataId,
    text: &'static str,
) -> Option<bool> {
    match buffer.put(id, data(text)) {
        Ok(()) => Some(true),
        Err((refused, bytes)) => {
            let are_these = are(&bytes, text);
            drop(bytes);
            if are_these && refused == id {
                Some(false)
            } else {
                None
            }
        }
    }
}

// The caller of CALLING.md.
/// Keeps pushed data and names the server to pass them on to. Where memory is refused nothing is kept.
fn receive(
    buffer: &mut Buffer,
    id: DataId,
    bytes: Bytes,
    rest: &[ServerId],
    me: ServerId,
) -> Result<Option<ServerId>, (DataId, Bytes)>
    ensures kept { OnOk result (buffer.new ≡ with_data buffer.old id bytes) }
    ensures hop { IfOk result (λ hop. hop ≡ next_hop_of rest.now me) }
    ensures refused { OnErr result (buffer.new ≡ buffer.old) }
{
    buffer.put(id, bytes)?;
    Ok(next_hop(rest, me))
}

// Whether data were received that go to this server.
fn is_hop(received: Result<Option<ServerId>, (DataId, Bytes)>, server: ServerId) -> bool {
    match received {
        Ok(hop) => hop == Some(server),
        Err((_id, bytes)) => {
            drop(bytes);
            false
        }
    }
}

// Whether a server passes data on to the next one, and keeps them.
fn keeps_received(buffer: &mut Buffer) -> bool {
    let rest = [ServerId(3), ServerId(2)];
    let hop = receive(buffer, id(1, 1), data("one"), &rest, ServerId(1));
    is_hop(hop, ServerId(2)) && has(buffer, id(1, 1), "one")
}

#[test]
fn received_data_are_kept_and_passed_on(rt: HostRuntime) -> Result<(), Fail> {
    let mut buffer = Buffer::new(rt.alloc(), 2)?;
    let are_kept = keeps_received(&mut buffer);
    drop(buffer);
    assert!(rt; are_kept);
    Ok(())
}

/// A call of the data under an id of a client's number and its own: they are put, there are none to take, or they are taken.
#[derive(Clone, Copy)]
enum BufferCall {
    Puts(u64, u64, &'static str),
    Lacks(u64, u64),
    Takes(u64, u64, &'static str),
}

fn does(buffer: &mut Buffer, call: BufferCall) -> bool {
    match call {
        BufferCall::Puts(client, seq, text) => puts(buffer, id(client, seq), text) == Some(true),
        BufferCall::Lacks(client, seq) => lacks(buffer, id(client, seq)),
        BufferCall::Takes(client, seq, text) => is(buffer, id(client, seq), text),
    }
}

fn does_all(buffer: &mut Buffer, calls: &[BufferCall]) -> bool {
    for call in calls {
        if !does(buffer, *call) {
            return false;
        }
    }
    true
}

// Whether a new buffer for so many data does what it has to.
fn is_kept(alloc: Global, limit: u32, calls: &[BufferCall]) -> Result<bool, AllocError> {
    let mut buffer = Buffer::new(alloc, limit)?;
    let are_made = does_all(&mut buffer, calls);
    drop(buffer);
    Ok(are_made)
}

/// For how many data a buffer is, and calls of it.
const CALLS: [(u32, &[BufferCall]); 3] = [
    // a full buffer drops its oldest
    (
        2,
        &[
            BufferCall::Puts(1, 1, "one"),
            BufferCall::Puts(1, 2, "two"),
            BufferCall::Puts(2, 1, "three"),
            BufferCall::Lacks(1, 1),
            BufferCall::Takes(1, 2, "two"),
            BufferCall::Takes(2, 1, "three"),
            BufferCall::Lacks(2, 1),
        ],
    ),
    // data put again are the newest
    (
        2,
        &[
            BufferCall::Puts(1, 1, "old"),
            BufferCall::Puts(1, 2, "two"),
            BufferCall::Puts(1, 1, "new"),
            BufferCall::Puts(1, 3, "three"),
            BufferCall::Lacks(1, 2),
            BufferCall::Takes(1, 3, "three"),
            BufferCall::Takes(1, 1, "new"),
        ],
    ),
    // a limit of none is one
    (
        0,
        &[
            BufferCall::Puts(1, 1, "one"),
            BufferCall::Puts(1, 2, "two"),
            BufferCall::Lacks(1, 1),
            BufferCall::Takes(1, 2, "two"),
        ],
    ),
];

#[test]
fn the_newest_data_stay(rt: HostRuntime) -> Result<(), Fail> {
    for (limit, calls) in CALLS {
        assert!(rt; is_kept(rt.alloc(), limit, calls)?, "{} calls", calls.len());
    }
    Ok(())
}

// Puts data under the numbers 1 to 8: the first number that was refused, or 9. None where other data were handed back.
fn first_refused<A: Allocator + Clone>(buffer: &mut Buffer<A>) -> Option<u64> {
    for seq in 1..=8 {
        match puts(buffer, id(1, seq), "x") {
            Some(true) => {}
            Some(false) => return Some(seq),
            None => return None,
        }
    }
    Some(9)
}

// Whether the data before that number are there and no others, and data are taken again, unless the very first were refused.
fn keeps_the_rest<A: Allocator + Clone>(buffer: &mut Buffer<A>, refused: u64) -> bool {
    for seq in 1..=8 {
        if is(buffer, id(1, seq), "x") != (seq < refused) {
            return false;
        }
    }
    puts(buffer, id(2, 1), "y") == Some(true) || refused == 1
}

// The first number that a new buffer in the heap refuses, or 0 where it isn't as it has to be then. The error: there is no room for the buffer.
fn refused_in(heap: &LocalHeap) -> Result<u64, AllocError> {
    let mut buffer = Buffer::new(heap, 8)?;
    let refused = first_refused(&mut buffer).unwrap_or(0);
    let is_kept = keeps_the_rest(&mut buffer, refused);
    drop(buffer);
    Ok(if is_kept { refused } else { 0 })
}

// The same in a new heap of so many bytes; None where there is no room for the buffer. It is 0 as well where the heap isn't empty then.
fn refused_within(alloc: Global, size: usize) -> Result<Option<u64>, AllocError> {
    let heap = LocalHeap::new(alloc, size)?;
    let refused = refused_in(&heap).ok();
    let is_empty = heap.used() == 0;
    drop(heap);
    Ok(if is_empty { refused } else { Some(0) })
}

// Heaps that grow by the least block, so that each allocation in turn is the first to be refused: the buffer's own, and those of eight data.
#[test]
fn refused_memory_leaves_what_was_there(rt: HostRuntime) -> Result<(), Fail> {
    let (mut no_buffer, mut met) = (false, [false; 9]);
    for size in 1..120 {
        match refused_within(rt.alloc(), size * 16)? {
            Some(refused) => {
                assert!(rt; refused > 0, "heap {size}");
                met[refused.saturating_sub(1).min(8) as usize] = true;
            }
            None => no_buffer = true,
        }
    }
    assert!(rt; no_buffer && met == [true; 9]);
    Ok(())
}

#[test]
fn hops_go_up(rt: HostRuntime) {
    let listed = [ServerId(5), ServerId(2), ServerId(9), ServerId(2)];
    for (me, next) in [
        (1, Some(2)),
        (2, Some(5)),
        (4, Some(5)),
        (5, Some(9)),
        (9, None),
    ] {
        assert!(rt;
            next_hop(&listed, ServerId(me)) == next.map(ServerId),
            "from {me}"
        );
    }
    assert!(rt; next_hop(&[], ServerId(1)).is_none());
}

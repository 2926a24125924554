//! New cells, whose names have much or little room.

use crate::outcome::small_cell;
use cell_core::world::World;
use gfs_types::config::Config;
use linked_list_allocator::LocalHeap;
use memory_nodes::start_fault::StartFault;
use script::options::Options;
use std::alloc::Global;

/// Why there is no small cell whose names lie in so many bytes; none where there is one.
fn fault_in(alloc: Global, bytes: usize) -> Option<StartFault> {
    let Ok(heap) = LocalHeap::new(alloc, bytes) else {
        return Some(StartFault::NoMemory);
    };
    let Options {
        servers,
        clients,
        config,
    } = small_cell();
    let config = Config {
        log_bytes: 4_096,
        ..config
    };
    match World::new(alloc, config, servers, clients, &heap) {
        Ok(_) => None,
        Err(fault) => Some(fault),
    }
}

#[test]
fn names_without_room_are_told(rt: HostRuntime) {
    for blocks in 1..64 {
        let fault = fault_in(rt.alloc(), blocks * 16);
        assert!(rt;
            matches!(fault, None | Some(StartFault::NamesFull)),
            "{} blocks",
            blocks
        );
    }
    assert!(rt; fault_in(rt.alloc(), 16) == Some(StartFault::NamesFull));
    assert!(rt; fault_in(rt.alloc(), 1_024).is_none());
}

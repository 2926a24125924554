//! Where the parts of a disk lie, worked out by hand.

use store_disk::Layout;

#[test]
fn chunks_of_64_bytes_in_blocks_of_16(rt: HostRuntime) {
    let layout = Layout::new(64, 16, 2);
    let sizes = [layout.blocks(), layout.redo_size(), layout.slot_size()];
    assert_eq!(rt; sizes, [4, 448, 232]);
    let places = [layout.slot(0), layout.digests(0), layout.chunk_bytes(0)];
    assert_eq!(rt; places, [496, 536, 664]);
    assert_eq!(rt; [layout.slot(1), layout.disk_size()], [728, 960]);
}

// Slots of the greatest chunk in the smallest blocks, as many as there can be: 13,194,343,481,648 = 48 + 201,326,848 + 65,536 * 201,326,632 bytes.
#[test]
fn the_greatest_disk(rt: HostRuntime) {
    let layout = Layout::new(67_108_864, 16, 65_536);
    let sizes = [layout.blocks(), layout.redo_size(), layout.slot_size()];
    assert_eq!(rt; sizes, [4_194_304, 201_326_848, 201_326_632]);
    assert_eq!(rt; layout.disk_size(), 13_194_343_481_648);
}

//! Heaps for C: with which limits they open, and which limit is named.
use jlr_embed::handle::Heap;
use jlr_embed::handle::open::{close, open};
use std::alloc::Global;

/// Cells, sessions, resources and the age of soft references, and what opening a heap of them returns.
const ROWS: [([u32; 4], u32); 10] = [
    ([16, 1, 1, 0], 0),
    ([65_536, 64, 256, 1_000], 0),
    ([15, 0, 0, 1_001], 35),
    ([65_537, 1, 1, 0], 35),
    ([16, 0, 0, 0], 36),
    ([16, 65, 1, 0], 36),
    ([16, 1, 0, 1_001], 37),
    ([16, 1, 257, 0], 37),
    ([16, 1, 1, 1_001], 38),
    ([1_024, 1, 16, 2], 0),
];

#[test]
fn a_heap_opens_where_its_limits_are_in_range(rt: HostRuntime) {
    let alloc: Global = rt.alloc();
    let mut heap = Heap::closed(alloc);
    for ([cells, sessions, resources, soft_age], wanted) in ROWS {
        let told = open(alloc, &mut heap, cells, sessions, resources, soft_age);
        assert_eq!(rt; told, wanted);
    }
    close(alloc, &mut heap);
}

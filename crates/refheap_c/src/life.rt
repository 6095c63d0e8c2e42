//! A handle is opened and closed; mutators join and leave.
ghost use Rattle.std.specs.Prelude.{◌≡◌, ◌⊎◌, None};
ghost use Rattle.jlr_types.specs.Ranges.{first_fault};
ghost use Rattle.jlr_embed.specs.Calls.{OpensHeap, TellsLimit};
ghost use Rattle.jlr_embed.specs.Ways.{EndsOnly};

use jlr_embed::handle::{Heap, calls, open};
use jlr_event::event::Event;
use jlr_machine::ask::Ask;
use jlr_types::Mutator;
use std::alloc::Global;

/// Opens an empty heap of these limits. It returns 0, 1 where there is no memory, or which limit is the first that is
/// out of its range: 35 for the cells, 16 to 65,536; 36 for the sessions, 1 to 64; 37 for the resources, 1 to 256; 38
/// for the age of soft references, 0 to 1,000. What the handle held before is let go where it returns 0, and stays
/// otherwise.
#[unsafe(no_mangle)]
pub extern "C" fn refheap_open(
    alloc: Global,
    heap: &mut Heap,
    cells: u32,
    sessions: u32,
    resources: u32,
    soft_age: u32,
) -> u32
    ensures { ((result ≡ 0) × OpensHeap cells sessions resources soft_age heap.new.value)
        ⊎ (((result ≡ 1) ⊎ TellsLimit result (first_fault cells sessions resources soft_age 64 4096))
        × (heap.new.value ≡ heap.old.value)) }
{
    open::open(alloc, heap, cells, sessions, resources, soft_age)
}

/// Closes a heap, of which all is let go. A closed one stays closed.
#[unsafe(no_mangle)]
pub extern "C" fn refheap_close(alloc: Global, heap: &mut Heap)
    ensures { heap.new.value ≡ None }
{
    open::close(alloc, heap);
}

/// A mutator joins.
#[unsafe(no_mangle)]
pub extern "C" fn refheap_join(alloc: Global, heap: &mut Heap, by: u8) -> u32
    ensures { EndsOnly heap.old.value (Event.Ask (Ask.Join by)) result heap.new.value }
{
    let ask = Ask::Join {
        mutator: Mutator::new(by),
    };
    calls::does(alloc, heap, ask)
}

/// A mutator leaves: its handles are dropped.
#[unsafe(no_mangle)]
pub extern "C" fn refheap_leave(alloc: Global, heap: &mut Heap, by: u8) -> u32
    ensures { EndsOnly heap.old.value (Event.Ask (Ask.Leave by)) result heap.new.value }
{
    let ask = Ask::Leave {
        mutator: Mutator::new(by),
    };
    calls::does(alloc, heap, ask)
}

//! Collections, the handler's steps, cycles in pieces, and what is counted and recorded.
ghost use Rattle.std.specs.Prelude.{◌≡◌};
ghost use Rattle.jlr_embed.specs.Calls.{HandsOverOnce, Marks};
ghost use Rattle.jlr_embed.specs.Tells.{TellsHanded, TellsProgress};
ghost use Rattle.jlr_embed.specs.Ways.{EndsOnly, GivesCounts, GivesFailure, GivesNote, GivesTruth};

use jlr_embed::handle::out::{Counts, Failed};
use jlr_embed::handle::{Heap, calls};
use jlr_event::event::Event;
use jlr_machine::ask::{Ask, FullMode};
use jlr_types::Mutator;
use std::alloc::Global;

/// A full collection, which keeps soft references by their age.
#[unsafe(no_mangle)]
pub extern "C" fn refheap_gc(alloc: Global, heap: &mut Heap, by: u8) -> u32
    ensures { EndsOnly heap.old.value (Event.Ask (Ask.Full by FullMode.Policy)) result heap.new.value }
{
    let ask = Ask::Full {
        mutator: Mutator::new(by),
        mode: FullMode::Policy,
    };
    calls::does(alloc, heap, ask)
}

/// A full collection that clears each soft reference whose referent is not strongly reachable.
#[unsafe(no_mangle)]
pub extern "C" fn refheap_gc_soft(alloc: Global, heap: &mut Heap, by: u8) -> u32
    ensures { EndsOnly heap.old.value (Event.Ask (Ask.Full by FullMode.ClearAll)) result heap.new.value }
{
    let ask = Ask::Full {
        mutator: Mutator::new(by),
        mode: FullMode::ClearAll,
    };
    calls::does(alloc, heap, ask)
}

/// A step of the handler: what a collection left pending goes to its queue, or into the cleaner's line. It returns 34
/// where nothing is pending.
#[unsafe(no_mangle)]
pub extern "C" fn refheap_hand_over(alloc: Global, heap: &mut Heap) -> u32
    ensures { HandsOverOnce heap.old.value (result ≡ 32) (TellsHanded result) heap.new.value }
{
    calls::hands_over(alloc, heap)
}

/// A cycle of marking in pieces is opened: whether none was open.
#[unsafe(no_mangle)]
pub extern "C" fn refheap_begin(alloc: Global, heap: &mut Heap, out: &mut bool) -> u32
    ensures { GivesTruth heap.old.value (Event.Ask Ask.Begin) result out.old out.new heap.new.value }
{
    let ask = Ask::Begin;
    calls::tells(alloc, heap, ask, out)
}

/// The collection of a cycle: yes where one was open and nothing was left to mark, and the cycle is closed then.
#[unsafe(no_mangle)]
pub extern "C" fn refheap_collect(alloc: Global, heap: &mut Heap, out: &mut bool) -> u32
    ensures { GivesTruth heap.old.value (Event.Ask Ask.Collect) result out.old out.new heap.new.value }
{
    let ask = Ask::Collect;
    calls::tells(alloc, heap, ask, out)
}

/// An open cycle is given up: whether one was open.
#[unsafe(no_mangle)]
pub extern "C" fn refheap_abandon(alloc: Global, heap: &mut Heap, out: &mut bool) -> u32
    ensures { GivesTruth heap.old.value (Event.Ask Ask.Abandon) result out.old out.new heap.new.value }
{
    let ask = Ask::Abandon;
    calls::tells(alloc, heap, ask, out)
}

/// A piece of marking of at most so many ticks, one for each cell and of an array one for each 64 elements: whether
/// marking is done. It returns 34 where no cycle is open, and then as many cells that a collection condemned become
/// free.
#[unsafe(no_mangle)]
pub extern "C" fn refheap_mark(alloc: Global, heap: &mut Heap, budget: u32, done: &mut bool) -> u32
    ensures { Marks heap.old.value budget ((result ≡ 32) × (done.new ≡ done.old))
        (TellsProgress result done.old done.new) heap.new.value }
{
    calls::marks(alloc, heap, budget, done)
}

/// Counts.
#[unsafe(no_mangle)]
pub extern "C" fn refheap_stat(alloc: Global, heap: &mut Heap, by: u8, out: &mut Counts) -> u32
    ensures { GivesCounts heap.old.value (Event.Ask (Ask.Stat by)) result out.old out.new heap.new.value }
{
    let ask = Ask::Stat {
        mutator: Mutator::new(by),
    };
    calls::counts(alloc, heap, ask, out)
}

/// The note of this index of the last 256 that actions told which ended well, the oldest at 0, or 34 where there are
/// fewer. It takes memory for the list.
#[unsafe(no_mangle)]
pub extern "C" fn refheap_note(
    alloc: Global,
    heap: &mut Heap,
    by: u8,
    index: usize,
    out: &mut u32,
) -> u32
    ensures { GivesNote index heap.old.value (Event.Ask (Ask.Notes by)) result out.old out.new heap.new.value }
{
    let ask = Ask::Notes {
        mutator: Mutator::new(by),
    };
    calls::notes(alloc, heap, ask, index, out)
}

/// The failure of this index of the last 256, the oldest at 0, or 34 where there are fewer. It takes memory for the
/// list.
#[unsafe(no_mangle)]
pub extern "C" fn refheap_failure(
    alloc: Global,
    heap: &mut Heap,
    by: u8,
    index: usize,
    out: &mut Failed,
) -> u32
    ensures { GivesFailure index heap.old.value (Event.Ask (Ask.Faults by)) result out.old out.new heap.new.value }
{
    let ask = Ask::Faults {
        mutator: Mutator::new(by),
    };
    calls::failures(alloc, heap, ask, index, out)
}

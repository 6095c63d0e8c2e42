//! Soft, weak and phantom references, and their queues.
ghost use Rattle.jlr_embed.specs.Ways.{EndsOnly, GivesHandle, GivesTruth};

use jlr_embed::handle::{Heap, calls};
use jlr_event::event::Event;
use jlr_machine::ask::Ask;
use jlr_types::{Handle, Mutator, RefKind};
use std::alloc::Global;

/// A soft reference to an object, on a queue, or on none, 0.
#[unsafe(no_mangle)]
pub extern "C" fn refheap_soft(
    alloc: Global,
    heap: &mut Heap,
    by: u8,
    referent: u8,
    queue: u8,
    out: &mut u8,
) -> u32
    ensures { GivesHandle heap.old.value (Event.Ask (Ask.MakeRef by RefKind.Soft referent queue)) result out.old out.new
        heap.new.value }
{
    let ask = Ask::MakeRef {
        mutator: Mutator::new(by),
        kind: RefKind::Soft,
        referent: Handle::new(referent),
        queue: Handle::new(queue),
    };
    calls::makes(alloc, heap, ask, out)
}

/// A weak reference to an object, on a queue, or on none, 0.
#[unsafe(no_mangle)]
pub extern "C" fn refheap_weak(
    alloc: Global,
    heap: &mut Heap,
    by: u8,
    referent: u8,
    queue: u8,
    out: &mut u8,
) -> u32
    ensures { GivesHandle heap.old.value (Event.Ask (Ask.MakeRef by RefKind.Weak referent queue)) result out.old out.new
        heap.new.value }
{
    let ask = Ask::MakeRef {
        mutator: Mutator::new(by),
        kind: RefKind::Weak,
        referent: Handle::new(referent),
        queue: Handle::new(queue),
    };
    calls::makes(alloc, heap, ask, out)
}

/// A phantom reference to an object, on a queue, or on none, 0.
#[unsafe(no_mangle)]
pub extern "C" fn refheap_phantom(
    alloc: Global,
    heap: &mut Heap,
    by: u8,
    referent: u8,
    queue: u8,
    out: &mut u8,
) -> u32
    ensures { GivesHandle heap.old.value (Event.Ask (Ask.MakeRef by RefKind.Phantom referent queue)) result out.old
        out.new heap.new.value }
{
    let ask = Ask::MakeRef {
        mutator: Mutator::new(by),
        kind: RefKind::Phantom,
        referent: Handle::new(referent),
        queue: Handle::new(queue),
    };
    calls::makes(alloc, heap, ask, out)
}

/// What a reference refers to: a handle for it, or 0 where it is cleared. A phantom one never gives it.
#[unsafe(no_mangle)]
pub extern "C" fn refheap_deref(
    alloc: Global,
    heap: &mut Heap,
    by: u8,
    reference: u8,
    out: &mut u8,
) -> u32
    ensures { GivesHandle heap.old.value (Event.Ask (Ask.Deref by reference)) result out.old out.new heap.new.value }
{
    let ask = Ask::Deref {
        mutator: Mutator::new(by),
        reference: Handle::new(reference),
    };
    calls::gives(alloc, heap, ask, out)
}

/// Whether a reference refers to this object, or, for 0, to none.
#[unsafe(no_mangle)]
pub extern "C" fn refheap_refers(
    alloc: Global,
    heap: &mut Heap,
    by: u8,
    reference: u8,
    object: u8,
    out: &mut bool,
) -> u32
    ensures { GivesTruth heap.old.value (Event.Ask (Ask.Refers by reference object)) result out.old out.new
        heap.new.value }
{
    let ask = Ask::Refers {
        mutator: Mutator::new(by),
        reference: Handle::new(reference),
        object: Handle::new(object),
    };
    calls::tells(alloc, heap, ask, out)
}

/// A reference is cleared, and not put on its queue.
#[unsafe(no_mangle)]
pub extern "C" fn refheap_clear(alloc: Global, heap: &mut Heap, by: u8, reference: u8) -> u32
    ensures { EndsOnly heap.old.value (Event.Ask (Ask.Clear by reference)) result heap.new.value }
{
    let ask = Ask::Clear {
        mutator: Mutator::new(by),
        reference: Handle::new(reference),
    };
    calls::does(alloc, heap, ask)
}

/// A reference is cleared, and put on its queue, if it has one that it was never on: whether it was.
#[unsafe(no_mangle)]
pub extern "C" fn refheap_enqueue(
    alloc: Global,
    heap: &mut Heap,
    by: u8,
    reference: u8,
    out: &mut bool,
) -> u32
    ensures { GivesTruth heap.old.value (Event.Ask (Ask.Enqueue by reference)) result out.old out.new heap.new.value }
{
    let ask = Ask::Enqueue {
        mutator: Mutator::new(by),
        reference: Handle::new(reference),
    };
    calls::tells(alloc, heap, ask, out)
}

/// Whether a reference is on its queue.
#[unsafe(no_mangle)]
pub extern "C" fn refheap_enqueued(
    alloc: Global,
    heap: &mut Heap,
    by: u8,
    reference: u8,
    out: &mut bool,
) -> u32
    ensures { GivesTruth heap.old.value (Event.Ask (Ask.Enqueued by reference)) result out.old out.new heap.new.value }
{
    let ask = Ask::Enqueued {
        mutator: Mutator::new(by),
        reference: Handle::new(reference),
    };
    calls::tells(alloc, heap, ask, out)
}

/// A queue.
#[unsafe(no_mangle)]
pub extern "C" fn refheap_queue(alloc: Global, heap: &mut Heap, by: u8, out: &mut u8) -> u32
    ensures { GivesHandle heap.old.value (Event.Ask (Ask.MakeQueue by)) result out.old out.new heap.new.value }
{
    let ask = Ask::MakeQueue {
        mutator: Mutator::new(by),
    };
    calls::makes(alloc, heap, ask, out)
}

/// The oldest member is taken off a queue: a handle for it, or 0 where the queue is empty.
#[unsafe(no_mangle)]
pub extern "C" fn refheap_poll(
    alloc: Global,
    heap: &mut Heap,
    by: u8,
    queue: u8,
    out: &mut u8,
) -> u32
    ensures { GivesHandle heap.old.value (Event.Ask (Ask.Poll by queue)) result out.old out.new heap.new.value }
{
    let ask = Ask::Poll {
        mutator: Mutator::new(by),
        queue: Handle::new(queue),
    };
    calls::gives(alloc, heap, ask, out)
}

/// The same, but of an empty queue it returns 18, would wait: it never waits.
#[unsafe(no_mangle)]
pub extern "C" fn refheap_remove(
    alloc: Global,
    heap: &mut Heap,
    by: u8,
    queue: u8,
    out: &mut u8,
) -> u32
    ensures { GivesHandle heap.old.value (Event.Ask (Ask.Remove by queue)) result out.old out.new heap.new.value }
{
    let ask = Ask::Remove {
        mutator: Mutator::new(by),
        queue: Handle::new(queue),
    };
    calls::gives(alloc, heap, ask, out)
}

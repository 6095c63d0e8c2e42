//! How a heap is opened and closed.
ghost use Rattle.std.specs.Prelude.{◌≡◌, ◌⊎◌, IfOk, None};
ghost use Rattle.jlr_types.specs.Ranges.{first_fault};
ghost use Rattle.jlr_steps.specs.Steps.{IsEmpty};
ghost use Rattle.jlr_embed.specs.Calls.{OpensHeap, TellsLimit};

use crate::Embedded;
use crate::handle::handle::Heap;
use crate::handle::status::limit;
use jlr_types::Limits;
use std::alloc::{AllocError, Global};

/// Opens a heap of these limits: 0, 1 where there is no memory, or which limit is the first that is out of its range.
/// What the handle held before is let go, where it returns 0.
pub fn open(
    alloc: Global,
    heap: &mut Heap,
    cells: u32,
    sessions: u32,
    resources: u32,
    soft_age: u32,
) -> u32
    ensures { ((result ≡ 0) × OpensHeap cells sessions resources soft_age heap.new.value)
        ⊎ (((result ≡ 1) ⊎ TellsLimit result (first_fault cells sessions resources soft_age 64 4096))
        × (heap.new.value ≡ heap.old.value)) }
{
    match Limits::checked(cells, sessions, resources, soft_age, 64, 4096) {
        Ok(limits) => open_with(alloc, heap, limits),
        Err(fault) => limit(fault),
    }
}

/// The same of limits that are in range.
fn open_with(alloc: Global, heap: &mut Heap, limits: Limits) -> u32
    ensures { ((result ≡ 0) × OpensHeap limits.cells limits.sessions limits.resources limits.soft_age heap.new.value)
        ⊎ ((result ≡ 1) × (heap.new.value ≡ heap.old.value)) }
{
    match empty(alloc, limits) {
        Ok(open) => {
            *heap = Heap::of(open);
            0
        }
        Err(_) => 1,
    }
}

/// The empty heap of these limits.
fn empty(alloc: Global, limits: Limits) -> Result<Box<Embedded>, AllocError>
    ensures { IfOk result
        (λ heap. IsEmpty limits.cells limits.sessions limits.resources limits.soft_age 1 heap.value) }
{
    boxed(alloc, Embedded::new(alloc, limits)?)
}

/// A value in a box. Of any type, so that the parts of a heap are not looked at here.
fn boxed<T: Drop>(alloc: Global, value: T) -> Result<Box<T>, AllocError>
    ensures { IfOk result (λ held. held.value ≡ value) }
{
    Ok(Box::new(alloc, value)?)
}

/// Closes a heap, of which all is let go. A closed one stays closed.
pub fn close(alloc: Global, heap: &mut Heap)
    ensures { heap.new.value ≡ None }
{
    *heap = Heap::closed(alloc);
}

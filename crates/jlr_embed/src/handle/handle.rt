//! What C holds: the pointer to a heap, or null.
ghost use Rattle.std.specs.Prelude.{◌≡◌, MatchOption, None, Option, Some, ℕ};
ghost use Rattle.jlr_steps.specs.Cores.{Kept};

use crate::Embedded;
use crate::handle::loose::Loose;
use std::alloc::Global;
use std::marker::Model;
use std::mem;
use std::ptr::null_mut;

/// A heap, or none. C sees one pointer, which is null where there is none.
#[repr(C)]
pub struct Heap {
    at: *mut u8,
    alloc: Global,
    pub ghost value: { Option (Kept ℕ) },
}

impl Model for Heap {
    ghost use Rattle.jlr_embed.specs.Held.{heap_held};

    ghost also_owns = { λ h. heap_held h.alloc h.at h.value };
}

impl Heap {
    /// No heap.
    #[inline(always)]
    pub fn closed(alloc: Global) -> Heap
        ensures { result.value ≡ None }
    {
        Heap {
            at: null_mut(),
            alloc,
        }
    }

    /// The heap behind a handle.
    #[inline(always)]
    pub(crate) fn of(heap: Box<Embedded>) -> Heap
        ensures { result.value ≡ Some heap.value }
    {
        Heap::of_loose(Loose::of(heap))
    }

    #[inline(always)]
    fn of_loose(heap: Loose<Embedded, Global>) -> Heap
        ensures { result.value ≡ Some heap.value }
    {
        let Loose { at, alloc } = heap;
        Heap {
            at: at as *mut u8,
            alloc,
        }
    }

    #[inline(always)]
    fn into_loose(self) -> Option<Loose<Embedded, Global>>
        ensures { MatchOption result (self.value ≡ None) (λ l. self.value ≡ Some l.value) }
    {
        let Heap { at, alloc } = self;
        if at.is_null() {
            None
        } else {
            Some(Loose {
                at: at as *mut Embedded,
                alloc,
            })
        }
    }

    #[inline(always)]
    fn into_box(self) -> Option<Box<Embedded>>
        ensures { MatchOption result (self.value ≡ None) (λ b. self.value ≡ Some b.value) }
    {
        match self.into_loose() {
            Some(loose) => Some(loose.into_box()),
            None => None,
        }
    }

    /// The heap is taken out, and the handle is closed.
    #[inline(always)]
    pub(crate) fn take(&mut self, alloc: Global) -> Option<Box<Embedded>>
        ensures taken { MatchOption result (self.old.value ≡ None) (λ b. self.old.value ≡ Some b.value) }
        ensures closed { self.new.value ≡ None }
    {
        mem::replace(self, Heap::closed(alloc)).into_box()
    }

    /// Puts a heap behind a handle that was taken out of, so that nothing is to be let go.
    #[inline(always)]
    pub(crate) fn hold(&mut self, heap: Box<Embedded>)
        ensures { self.new.value ≡ Some heap.value }
    {
        mem::forget(mem::replace(self, Heap::of(heap)));
    }
}

impl Drop for Heap {
    fn drop(self) {
        drop(self.into_box());
    }
}

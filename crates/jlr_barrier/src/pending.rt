//! The pending list: what the collector cleared and the handler has still to hand over.
ghost use Rattle.std.specs.Prelude.{◌≡◌, ◌++◌, ◌∷◌, [], ◌<◌, IfOk, drop, length, slice_get};
ghost use Rattle.jlr_machine.specs.Objects.{◌∈◌};
ghost use Rattle.jlr_barrier.specs.Graphs.{with_pending};
ghost use Rattle.jlr_barrier.specs.Snapshots.{IsInHand};

use crate::heap::Heap;
use crate::lists::PENDING;
use jlr_machine::items::Items;
use jlr_types::Slot;
use std::alloc::{AllocError, Global};

impl Heap {
    /// The front of the pending list, if it is not empty.
    pub fn first_pending(&self) -> Option<Slot>
        ensures { result ≡ slice_get self.now.graph.pending 0 }
    {
        self.lists.front(PENDING)
    }

    /// The front of the pending list leaves it, if there is one.
    pub fn take_pending(&mut self) -> Option<Slot>
        ensures front { result ≡ slice_get self.old.graph.pending 0 }
        ensures graph { self.new.graph ≡ with_pending self.old.graph (drop 1 self.old.graph.pending) }
        ensures clock { self.new.clock ≡ self.old.clock }
        ensures marking { self.new.marking ≡ self.old.marking }
        ensures condemned { self.new.condemned ≡ self.old.condemned }
    {
        self.lists.take_front(PENDING)
    }

    /// A slot that stands neither in the pending list nor in the line goes to the end of the pending list.
    pub fn add_pending(&mut self, slot: Slot)
        requires slot { slot < length self.old.graph.objects }
        requires pending { ¬ (slot ∈ self.old.graph.pending) }
        requires line { ¬ (slot ∈ self.old.graph.line) }
        requires held { IsInHand self.old slot }
        ensures graph { self.new.graph ≡ with_pending self.old.graph (self.old.graph.pending ++ slot ∷ []) }
        ensures clock { self.new.clock ≡ self.old.clock }
        ensures marking { self.new.marking ≡ self.old.marking }
        ensures condemned { self.new.condemned ≡ self.old.condemned }
    {
        self.lists.append(PENDING, slot);
    }

    /// The pending list as plain data.
    ///
    /// # Errors
    /// `AllocError` where there is no memory for it.
    pub fn pending_image(&self, alloc: Global) -> Result<Items<Slot>, AllocError>
        ensures { IfOk result (λ slots. slots ≡ self.now.graph.pending) }
    {
        self.lists.image(alloc, PENDING)
    }
}

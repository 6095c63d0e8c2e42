//! The cleaner's line: the cleanables that the handler handed over and the cleaner has still to take up.
ghost use Rattle.std.specs.Prelude.{◌≡◌, ◌++◌, ◌∷◌, [], ◌<◌, IfOk, drop, length, slice_get};
ghost use Rattle.jlr_machine.specs.Objects.{◌∈◌};
ghost use Rattle.jlr_barrier.specs.Graphs.{with_line};
ghost use Rattle.jlr_barrier.specs.Snapshots.{IsInHand};

use crate::heap::Heap;
use crate::lists::LINE;
use jlr_machine::items::Items;
use jlr_types::Slot;
use std::alloc::{AllocError, Global};

impl Heap {
    /// The front of the line, if it is not empty.
    pub fn first_lined(&self) -> Option<Slot>
        ensures { result ≡ slice_get self.now.graph.line 0 }
    {
        self.lists.front(LINE)
    }

    /// The front of the line leaves it, if there is one.
    pub fn take_lined_front(&mut self) -> Option<Slot>
        ensures front { result ≡ slice_get self.old.graph.line 0 }
        ensures graph { self.new.graph ≡ with_line self.old.graph (drop 1 self.old.graph.line) }
        ensures clock { self.new.clock ≡ self.old.clock }
        ensures marking { self.new.marking ≡ self.old.marking }
        ensures condemned { self.new.condemned ≡ self.old.condemned }
    {
        self.lists.take_front(LINE)
    }

    /// A slot that stands neither in the pending list nor in the line goes to the end of the line.
    pub fn add_lined(&mut self, slot: Slot)
        requires slot { slot < length self.old.graph.objects }
        requires pending { ¬ (slot ∈ self.old.graph.pending) }
        requires line { ¬ (slot ∈ self.old.graph.line) }
        requires held { IsInHand self.old slot }
        ensures graph { self.new.graph ≡ with_line self.old.graph (self.old.graph.line ++ slot ∷ []) }
        ensures clock { self.new.clock ≡ self.old.clock }
        ensures marking { self.new.marking ≡ self.old.marking }
        ensures condemned { self.new.condemned ≡ self.old.condemned }
    {
        self.lists.append(LINE, slot);
    }

    /// The line as plain data.
    ///
    /// # Errors
    /// `AllocError` where there is no memory for it.
    pub fn line_image(&self, alloc: Global) -> Result<Items<Slot>, AllocError>
        ensures { IfOk result (λ slots. slots ≡ self.now.graph.line) }
    {
        self.lists.image(alloc, LINE)
    }
}

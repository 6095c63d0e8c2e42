//! Cleaners, cleanables and guards.
ghost use Rattle.std.specs.Prelude.{◌≡◌, IsTrue, option_and_then};
ghost use Rattle.jlr_machine.specs.Objects.{as_cleanable, as_guard, at, change_at, is_cleaner, some_and};
ghost use Rattle.jlr_machine.specs.Objects.{with_cleanable};
ghost use Rattle.jlr_machine.specs.Refusals.{is_cleanable, is_guard};
ghost use Rattle.jlr_machine.specs.Calls.{spent};
ghost use Rattle.jlr_cells.specs.Contents.{in_clean_state, cleanable_without_referent};
ghost use Rattle.jlr_machine.specs.Edges.{is_active};
ghost use Rattle.jlr_barrier.specs.Graphs.{with_objects};
ghost use Rattle.jlr_barrier.specs.Snapshots.{IsInHand};

use crate::heap::Heap;
use jlr_machine::object::{CleanState, Cleanable, Guard};
use jlr_types::Slot;

impl Heap {
    /// Whether there is a cleaner at a slot.
    pub fn is_cleaner(&self, slot: Slot) -> bool
        ensures { result ≡ some_and is_cleaner (at self.now.graph.objects slot) }
    {
        self.cells.is_cleaner(slot)
    }

    /// Whether there is a cleanable at a slot.
    pub fn is_cleanable(&self, slot: Slot) -> bool
        ensures { result ≡ some_and is_cleanable (at self.now.graph.objects slot) }
    {
        self.cells.is_cleanable(slot)
    }

    /// Whether there is a guard at a slot.
    pub fn is_guard(&self, slot: Slot) -> bool
        ensures { result ≡ some_and is_guard (at self.now.graph.objects slot) }
    {
        self.cells.is_guard(slot)
    }

    /// The cleanable at a slot, if there is one.
    pub fn cleanable(&self, slot: Slot) -> Option<Cleanable>
        ensures { result ≡ option_and_then as_cleanable (at self.now.graph.objects slot) }
    {
        self.cells.cleanable(slot)
    }

    /// The guard at a slot, if there is one.
    pub fn guard(&self, slot: Slot) -> Option<Guard>
        ensures { result ≡ option_and_then as_guard (at self.now.graph.objects slot) }
    {
        self.cells.guard(slot)
    }

    /// The cleanable at a slot comes into another state. While it is Armed or Pending it is a root by itself.
    pub fn set_clean_state(&mut self, slot: Slot, state: CleanState)
        requires cleanable { IsTrue (some_and is_cleanable (at self.old.graph.objects slot)) }
        requires root { IsTrue (is_active state) → IsInHand self.old slot }
        ensures graph { self.new.graph ≡ with_objects self.old.graph
            (change_at self.old.graph.objects slot (with_cleanable (in_clean_state state))) }
        ensures clock { self.new.clock ≡ self.old.clock }
        ensures marking { self.new.marking ≡ self.old.marking }
        ensures condemned { self.new.condemned ≡ self.old.condemned }
    {
        self.cells.set_clean_state(slot, state);
    }

    /// The cleanable at a slot loses its referent.
    pub fn clear_cleanable(&mut self, slot: Slot)
        requires { IsTrue (some_and is_cleanable (at self.old.graph.objects slot)) }
        ensures graph { self.new.graph ≡ with_objects self.old.graph
            (change_at self.old.graph.objects slot (with_cleanable cleanable_without_referent)) }
        ensures clock { self.new.clock ≡ self.old.clock }
        ensures marking { self.new.marking ≡ self.old.marking }
        ensures condemned { self.new.condemned ≡ self.old.condemned }
    {
        self.cells.clear_cleanable(slot);
    }

    /// The cleanable at a slot has done what it was for: it is spent, has no referent any more, and is no root by
    /// itself.
    pub fn spend(&mut self, slot: Slot)
        requires { IsTrue (some_and is_cleanable (at self.old.graph.objects slot)) }
        ensures graph { self.new.graph ≡ with_objects self.old.graph
            (change_at self.old.graph.objects slot (with_cleanable spent)) }
        ensures clock { self.new.clock ≡ self.old.clock }
        ensures marking { self.new.marking ≡ self.old.marking }
        ensures condemned { self.new.condemned ≡ self.old.condemned }
    {
        self.cells.spend(slot);
    }
}

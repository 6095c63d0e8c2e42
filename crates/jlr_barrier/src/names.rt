//! The names of objects.
ghost use Rattle.std.specs.Prelude.{◌≡◌, ◌≤◌, IfOk, None, OnErr, OnOk, length};
ghost use Rattle.jlr_machine.specs.Lookups.{bound, slot_bound, unbound, bound_names};
ghost use Rattle.jlr_barrier.specs.Graphs.{with_names};
ghost use Rattle.jlr_barrier.specs.Snapshots.{IsInHand};

use crate::heap::Heap;
use jlr_machine::items::Items;
use jlr_machine::machine::Binding;
use jlr_machine::text::Name;
use jlr_types::Slot;
use std::alloc::{AllocError, Global};

impl Heap {
    /// How many names there are.
    pub fn name_count(&self) -> usize
        ensures { result ≡ length self.now.graph.names }
    {
        self.names.len()
    }

    /// The slot that a name stands for, if it is bound.
    pub fn find(&self, name: &Name) -> Option<Slot>
        ensures { result ≡ slot_bound self.now.graph.names name.now }
    {
        self.names.find(name)
    }

    /// From now on a name stands for this slot, which is a root as long, so this is one of the calls that make edges.
    /// An old name keeps its place, and takes no memory; a new one comes last.
    ///
    /// # Errors
    /// `AllocError` where the name is new and there is no memory for it. The heap stays as it is then.
    pub fn bind(&mut self, name: &Name, slot: Slot) -> Result<(), AllocError>
        requires held { IsInHand self.old slot }
        ensures graph { OnOk result (self.new.graph
            ≡ with_names self.old.graph (bound self.old.graph.names name.now slot)) }
        ensures clock { self.new.clock ≡ self.old.clock }
        ensures marking { self.new.marking ≡ self.old.marking }
        ensures condemned { self.new.condemned ≡ self.old.condemned }
        ensures err { OnErr result ((self.new ≡ self.old) × (slot_bound self.old.graph.names name.now ≡ None)) }
    {
        self.names.bind(name, slot)
    }

    /// A name stands for nothing any more. Where it is not bound, nothing changes.
    pub fn unbind(&mut self, name: &Name)
        ensures graph { self.new.graph ≡ with_names self.old.graph (unbound self.old.graph.names name.now) }
        ensures clock { self.new.clock ≡ self.old.clock }
        ensures marking { self.new.marking ≡ self.old.marking }
        ensures condemned { self.new.condemned ≡ self.old.condemned }
    {
        self.names.unbind(name);
    }

    /// The names alone, in order of binding.
    ///
    /// # Errors
    /// `AllocError` where there are names and no memory for a copy of them.
    pub fn names(&self, alloc: Global) -> Result<Items<Name>, AllocError>
        ensures names { IfOk result (λ names. names ≡ bound_names self.now.graph.names) }
        ensures some { OnErr result (1 ≤ length self.now.graph.names) }
    {
        self.names.names(alloc)
    }

    /// The bindings as plain data.
    ///
    /// # Errors
    /// `AllocError` where there is no memory for them.
    pub fn names_image(&self, alloc: Global) -> Result<Items<Binding>, AllocError>
        ensures { IfOk result (λ names. names ≡ self.now.graph.names) }
    {
        self.names.image(alloc)
    }
}

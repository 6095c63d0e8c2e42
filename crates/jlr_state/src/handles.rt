//! A new handle.
ghost use Rattle.std.specs.Prelude.{◌≡◌, true, Some};
ghost use Rattle.jlr_machine.specs.Lookups.{has_free_handle, with_handle};
ghost use Rattle.jlr_machine.specs.Calls.{new_handle};
ghost use Rattle.jlr_barrier.specs.Snapshots.{IsInHand};

use crate::state::State;
use jlr_machine::ask::Answer;
use jlr_types::{Handle, Mutator, Slot};

impl<R> State<R> {
    ghost use Rattle.jlr_state.specs.Machines.{machine_of};
    ghost use Rattle.jlr_state.specs.Rest.{LeavesRest};

    /// The mutator holds a slot by its lowest free handle.
    pub fn give(&mut self, by: Mutator, slot: Slot) -> Answer
        requires room { has_free_handle (machine_of self.old) by ≡ true }
        requires held { IsInHand self.old.heap slot }
        ensures answer { new_handle (machine_of self.old) by ≡ Some result }
        ensures held { machine_of self.new ≡ with_handle (machine_of self.old) by slot }
        ensures objects { self.new.heap.graph.objects ≡ self.old.heap.graph.objects }
        ensures rest { LeavesRest self.old self.new }
        ensures marking { self.new.heap.marking ≡ self.old.heap.marking }
    {
        match self.heap.put_handle(by, slot) {
            Some(handle) => Answer::Handle(handle),
            None => unreachable!(),
        }
    }
}

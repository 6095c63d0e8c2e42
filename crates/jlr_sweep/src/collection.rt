//! A full collection.
ghost use Rattle.std.specs.Prelude.{◌≡◌, ◌≤◌, length};
ghost use Rattle.jlr_machine.specs.declared.machine.Machine.{Machine};
ghost use Rattle.jlr_machine.specs.Choices.{kept_by, nothing_chosen, pended_by};
ghost use Rattle.jlr_machine.specs.Collection.{IsFullClearing};
ghost use Rattle.jlr_soft.specs.declared.policy.Mode.TheVariants.{ClearAll};
ghost use Rattle.jlr_barrier.specs.Graphs.{counted, in_machine};
ghost use Rattle.jlr_sweep.specs.Collecting.{Collects, closed};
ghost use Rattle.jlr_process.specs.Flipping.{IsRooted};
ghost use Rattle.jlr_marker.specs.Following.{keeps};

use crate::mark::mark;
use jlr_barrier::Heap;
use jlr_machine::choice::Choice;
use jlr_process::flip;
use jlr_soft::Policy;
use jlr_types::Meter;

/// A full collection (package `java.lang.ref`). It keeps the least set that holds the roots and is closed under strong
/// edges and under the soft edges of those members that the policy keeps; in the mode `ClearAll` that is exactly what
/// is strongly reachable. All references to the rest are cleared, and those of them that are ready become pending. An
/// open cycle is over then, and no cell is condemned: each that holds no object is free. It takes no memory.
pub fn full(heap: &mut Heap, policy: &Policy, choice: &mut Choice)
    requires fit { (m : Machine) × IsRooted m heap.old.graph }
    requires nothing { choice.old ≡ nothing_chosen choice.old.cells }
    requires room { length heap.old.graph.objects ≤ choice.old.cells }
    ensures collects { (m : Machine) → IsRooted m heap.old.graph →
        Collects (keeps policy.now heap.old.clock) (in_machine m heap.old.graph) choice.old choice.new
        (closed (in_machine m heap.new.graph)) }
    ensures clears { policy.now.mode ≡ ClearAll → (m : Machine) → IsRooted m heap.old.graph →
        IsFullClearing (in_machine m heap.old.graph) (kept_by choice.new) (pended_by choice.new) }
    ensures mutators { heap.new.graph.mutators ≡ heap.old.graph.mutators }
    ensures clock { heap.new.clock ≡ counted heap.old.clock }
    ensures cells { length heap.new.graph.objects ≡ length heap.old.graph.objects }
    ensures room { choice.new.cells ≡ choice.old.cells }
    ensures swept { heap.new.condemned ≡ 0 }
{
    mark(heap, policy, &mut Meter::new());
    flip(heap, choice);
    heap.sweep_all();
}

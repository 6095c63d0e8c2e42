//! Marking: what the roots reach by strong edges, and by the soft edges that the policy keeps.
ghost use Rattle.std.specs.Prelude.{◌≡◌, ℕ, ◌*◌, ◌+◌, ◌^◌, ◌<◌, ◌≤◌, ◌↔◌, [], IsTrue, is_some, length};
ghost use Rattle.jlr_machine.specs.Objects.{at, ◌∈◌};
ghost use Rattle.jlr_machine.specs.Edges.{edges_from};
ghost use Rattle.jlr_machine.specs.Edges.Chain.{UpToSoft};
ghost use Rattle.jlr_barrier.specs.Graphs.{held};
ghost use Rattle.jlr_marks.specs.Marking.{IsMarked};
ghost use Rattle.jlr_barrier.specs.Snapshots.{RefersTo};
ghost use Rattle.jlr_marker.specs.Following.{IsFollowed, keeps};
ghost use Rattle.jlr_marker.specs.Spending.{ticks_spent, ticks_for};

use jlr_barrier::Heap;
use jlr_marker::{begin, follow};
use jlr_soft::Policy;
use jlr_types::Meter;

/// Marks just what the roots reach by strong edges, and by the soft edges of those references that the policy keeps. It
/// ticks as often as what it marks takes: once for an object, and for an array once for each 64 elements.
pub(crate) fn mark(heap: &mut Heap, policy: &Policy, meter: &mut Meter)
    requires few { length heap.old.graph.objects ≤ 65536 }
    requires ticks { meter.old + 65536 * 64 + 1 < 2 ^ 64 }
    requires roots { (x : ℕ) → x ∈ held heap.old.graph → IsTrue (is_some (at heap.old.graph.objects x)) }
    requires edges { (x y : ℕ) → y ∈ edges_from UpToSoft heap.old.graph.objects x
        → IsTrue (is_some (at heap.old.graph.objects y)) }
    requires within { (x y : ℕ) → RefersTo heap.old.graph.objects x y → y < length heap.old.graph.objects }
    ensures graph { heap.new.graph ≡ heap.old.graph }
    ensures clock { heap.new.clock ≡ heap.old.clock }
    ensures marked { (x : ℕ) → IsMarked heap.new.marking x
        ↔ IsFollowed (keeps policy.now heap.old.clock) heap.old.graph.objects (held heap.old.graph) x }
    ensures objects { (x : ℕ) → IsMarked heap.new.marking x → IsTrue (is_some (at heap.old.graph.objects x)) }
    ensures no_grey { heap.new.marking.grey ≡ [] }
    ensures long { length heap.new.marking.bits ≡ length heap.old.graph.objects }
    ensures once { meter.new ≡ meter.old + ticks_spent heap.old.graph.objects heap.new.marking }
    ensures ticks { meter.new ≤ meter.old + ticks_for heap.old.graph.objects }
{
    begin(heap);
    while let Some(slot) = heap.next_grey() {
        follow(heap, policy, slot, meter);
    }
}

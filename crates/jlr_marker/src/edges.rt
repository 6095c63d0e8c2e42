//! What is followed from a grey cell: strong edges, and the referent of a soft reference that the policy keeps.
ghost use Rattle.std.specs.Prelude.{◌≡◌, ℕ, ◌+◌, ◌^◌, ◌<◌, ◌≤◌, Some, length, true};
ghost use Rattle.jlr_machine.specs.Objects.{◌∈◌};
ghost use Rattle.jlr_machine.specs.Edges.{edges_from};
ghost use Rattle.jlr_machine.specs.Edges.Chain.{UpToSoft};
ghost use Rattle.jlr_marks.specs.Marking.{Shaded, upcoming};
ghost use Rattle.jlr_barrier.specs.Parts.{ticks_at};
ghost use Rattle.jlr_barrier.specs.Snapshots.{IsObject, RefersTo};
ghost use Rattle.jlr_marker.specs.Following.{Ticks, keeps, soft_at};

use jlr_barrier::Heap;
use jlr_soft::Policy;
use jlr_types::{Meter, Slot};

/// Marks what a kept soft reference refers to.
#[inline(never)]
fn follow_soft(heap: &mut Heap, policy: &Policy, slot: Slot)
    requires inside { slot < length heap.old.graph.objects }
    requires object { (x : ℕ) → soft_at heap.old.graph.objects slot ≡ Some x → IsObject heap.old.graph.objects x }
    ensures graph { heap.new.graph ≡ heap.old.graph }
    ensures clock { heap.new.clock ≡ heap.old.clock }
    ensures condemned { heap.new.condemned ≡ heap.old.condemned }
    ensures shaded { Shaded (λ x. (keeps policy.now heap.old.clock slot ≡ true)
        × (soft_at heap.old.graph.objects slot ≡ Some x)) heap.old.marking heap.new.marking }
{
    if let Some(referent) = heap.soft_referent(slot) {
        if policy.keeps(heap.last_get(slot), heap.collections()) {
            heap.shade(referent);
        }
    }
}

/// Marks what the object at the grey slot that comes next leads to by the edges that are followed: one tick. It is
/// black then, but for an array with more than 64 elements that were not followed yet: its next 64 are followed, and it
/// comes next again.
#[inline(always)]
pub fn follow(heap: &mut Heap, policy: &Policy, slot: Slot, meter: &mut Meter)
    requires next { upcoming heap.old.marking ≡ Some slot }
    requires object { IsObject heap.old.graph.objects slot }
    requires ticks { meter.old + 1 < 2 ^ 64 }
    requires objects { (x : ℕ) → x ∈ edges_from UpToSoft heap.old.graph.objects slot
        → IsObject heap.old.graph.objects x }
    requires within { (x : ℕ) → RefersTo heap.old.graph.objects slot x → x < length heap.old.graph.objects }
    ensures graph { heap.new.graph ≡ heap.old.graph }
    ensures clock { heap.new.clock ≡ heap.old.clock }
    ensures condemned { heap.new.condemned ≡ heap.old.condemned }
    ensures follows { Ticks (keeps policy.now heap.old.clock) heap.old.graph.objects slot heap.old.marking
        heap.new.marking }
    ensures few { ticks_at heap.old.graph.objects slot ≤ 64 }
    ensures ticked { meter.new ≡ meter.old + 1 }
{
    if heap.scan(slot, meter) {
        return;
    }
    follow_soft(heap, policy, slot);
}

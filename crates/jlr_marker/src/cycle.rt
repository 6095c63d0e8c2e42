//! A cycle begins, and a piece of it.
ghost use Rattle.std.specs.Prelude.{◌≡◌, ◌⊎◌, ℕ, ◌+◌, ◌-◌, ◌*◌, ◌^◌, ◌<◌, ◌≤◌, [], Some, false, length, true};
ghost use Rattle.jlr_machine.specs.Objects.{◌∈◌};
ghost use Rattle.jlr_machine.specs.Edges.{edges_from};
ghost use Rattle.jlr_machine.specs.Edges.Chain.{UpToSoft};
ghost use Rattle.jlr_marks.specs.Marking.{Shaded, unmarked};
ghost use Rattle.jlr_marks.specs.declared.part.Part.{Part};
ghost use Rattle.jlr_barrier.specs.Graphs.{held};
ghost use Rattle.jlr_barrier.specs.Parts.{ticks_at};
ghost use Rattle.jlr_barrier.specs.Snapshots.{IsObject, RefersTo};
ghost use Rattle.jlr_marker.specs.Following.{keeps};
ghost use Rattle.jlr_marker.specs.Marks.{Blackening, IsBlackened, MarksOn};

use crate::edges::follow;
use jlr_barrier::Heap;
use jlr_soft::Policy;
use jlr_types::{Meter, Progress};

/// A cycle begins: the roots are grey, and nothing else is marked.
pub fn begin(heap: &mut Heap)
    requires { (x : ℕ) → x ∈ held heap.old.graph → IsObject heap.old.graph.objects x }
    ensures graph { heap.new.graph ≡ heap.old.graph }
    ensures clock { heap.new.clock ≡ heap.old.clock }
    ensures shaded { Shaded (λ x. x ∈ held heap.old.graph) (unmarked (length heap.old.graph.objects)) heap.new.marking }
{
    heap.open_marking();
}

/// A piece of the marking of an open cycle: grey cells are followed, one tick each, and of an array one for each 64
/// elements, until none is left or the budget is spent. It is Done where none is left, and else there is More. Without
/// an open cycle it is Idle, and nothing is done.
pub fn mark(
    heap: &mut Heap,
    is_open: bool,
    policy: &Policy,
    meter: &mut Meter,
    budget: u32,
) -> Progress
    requires ticks { meter.old + budget < 2 ^ 64 }
    requires objects { (x y : ℕ) → y ∈ edges_from UpToSoft heap.old.graph.objects x
        → IsObject heap.old.graph.objects y }
    requires within { (x y : ℕ) → RefersTo heap.old.graph.objects x y → y < length heap.old.graph.objects }
    ensures graph { heap.new.graph ≡ heap.old.graph }
    ensures clock { heap.new.clock ≡ heap.old.clock }
    ensures condemned { heap.new.condemned ≡ heap.old.condemned }
    ensures ticked { meter.old ≤ meter.new }
    ensures idle { is_open ≡ false → (result ≡ Progress.Idle) × (heap.new.marking ≡ heap.old.marking)
        × (meter.new ≡ meter.old) }
    ensures marks { is_open ≡ true → MarksOn (keeps policy.now heap.old.clock) heap.old.graph.objects budget
        (meter.new - meter.old) result heap.old.marking heap.new.marking }
{
    if !is_open {
        return Progress::Idle;
    }
    follow_grey(heap, policy, meter, budget);
    if heap.has_grey() {
        return Progress::More;
    }
    Progress::Done
}

/// Grey cells are followed, part by part, one tick each, until none is left or the budget is spent.
fn follow_grey(heap: &mut Heap, policy: &Policy, meter: &mut Meter, budget: u32)
    requires ticks { meter.old + budget < 2 ^ 64 }
    requires objects { (x y : ℕ) → y ∈ edges_from UpToSoft heap.old.graph.objects x
        → IsObject heap.old.graph.objects y }
    requires within { (x y : ℕ) → RefersTo heap.old.graph.objects x y → y < length heap.old.graph.objects }
    ensures graph { heap.new.graph ≡ heap.old.graph }
    ensures clock { heap.new.clock ≡ heap.old.clock }
    ensures condemned { heap.new.condemned ≡ heap.old.condemned }
    ensures ticked { (meter.old ≤ meter.new) × (meter.new ≤ meter.old + budget) }
    ensures blackens { Blackening (keeps policy.now heap.old.clock) heap.old.graph.objects (meter.new - meter.old)
        heap.old.marking heap.new.marking }
    ensures each { (x : ℕ) → IsBlackened heap.old.marking heap.new.marking x → ticks_at heap.old.graph.objects x ≤ 64 }
    ensures part { (p : Part) → heap.new.marking.part ≡ Some p → (heap.old.marking.part ≡ Some p)
        ⊎ (p.place < 64 * ticks_at heap.old.graph.objects p.slot) }
    ensures stops { (meter.new ≡ meter.old + budget) ⊎ (heap.new.marking.grey ≡ []) }
{
    for _tick in 0..budget {
        let Some(slot) = heap.next_grey() else {
            return;
        };
        follow(heap, policy, slot, meter);
    }
}

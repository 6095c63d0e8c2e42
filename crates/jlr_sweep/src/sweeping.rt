//! Sweeping in steps.
ghost use Rattle.std.specs.Prelude.{◌≡◌, ◌-◌};

use jlr_barrier::Heap;

/// Condemned cells become free: so many, or all where there are no more. The machine sees no difference.
pub fn sweep(heap: &mut Heap, budget: u32)
    ensures graph { heap.new.graph ≡ heap.old.graph }
    ensures clock { heap.new.clock ≡ heap.old.clock }
    ensures marking { heap.new.marking ≡ heap.old.marking }
    ensures condemned { heap.new.condemned ≡ heap.old.condemned - budget }
{
    heap.sweep(budget);
}

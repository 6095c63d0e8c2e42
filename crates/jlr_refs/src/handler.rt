//! The handler's step: what is pending is handed over, a reference to its queue, and a cleanable to the line.
ghost use Rattle.std.specs.Prelude.{◌≡◌, ◌++◌, ◌∷◌, [], IsTrue, Some, slice_get};
ghost use Rattle.jlr_machine.specs.declared.object.CleanState.TheVariants as state;
ghost use Rattle.jlr_machine.specs.Objects.{◌∈◌, at, change_at, some_and, with_cleanable};
ghost use Rattle.jlr_machine.specs.Refusals.{is_cleanable};
ghost use Rattle.jlr_machine.specs.Calls.{handed_cleanable, handed_reference};
ghost use Rattle.jlr_machine.specs.Edges.{is_own_root};
ghost use Rattle.jlr_cells.specs.Contents.{in_clean_state};
ghost use Rattle.jlr_marks.specs.Marking.{Shaded};
ghost use Rattle.jlr_barrier.specs.Graphs.{with_line, with_objects};
ghost use Rattle.jlr_refs.specs.Parts.{DeliversFront, HandsOverReference, IsPartOfMachine, handed_there};
ghost use Rattle.jlr_refs.specs.Parts.{queue_in_front};

use crate::references::enqueue;
use jlr_barrier::Heap;
use jlr_machine::ask::Handed;
use jlr_machine::object::{CleanState, RefState};
use jlr_types::Slot;

/// The front of the pending list leaves it. A Pending reference goes to the end of its queue, and a Pending cleanable,
/// which is Lined then, to the end of the line. A reference that the program enqueued in the meantime is skipped, and
/// so is a cleanable that it cleaned. Nothing is handed over where the list is empty. The queue that a reference goes
/// to is shaded.
pub fn hand_over(heap: &mut Heap) -> Handed
    requires fit { IsPartOfMachine heap.old.graph }
    ensures handed { HandsOverReference heap.old.graph result heap.new.graph }
    ensures shaded { Shaded (λ s. (result ≡ Handed.Queued) × (queue_in_front heap.old.graph ≡ Some s)) heap.old.marking
        heap.new.marking }
    ensures clock { heap.new.clock ≡ heap.old.clock }
{
    let Some(slot) = heap.first_pending() else {
        return Handed::Nothing;
    };
    let handed = handed_at(heap, slot);
    deliver(heap, slot, handed);
    handed
}

/// Where the handler takes what is at a slot.
fn handed_at(heap: &Heap, slot: Slot) -> Handed
    ensures { result ≡ handed_there (at heap.now.graph.objects slot) }
{
    if let Some(reference) = heap.reference(slot) {
        return handed_reference(reference.state);
    }
    if let Some(cleanable) = heap.cleanable(slot) {
        return handed_cleanable(cleanable.state);
    }
    Handed::Skipped
}

fn handed_reference(state: RefState) -> Handed
    ensures { result ≡ handed_reference state }
{
    match state {
        RefState::Pending => Handed::Queued,
        RefState::Fresh | RefState::Queued | RefState::Removed => Handed::Skipped,
    }
}

fn handed_cleanable(state: CleanState) -> Handed
    ensures { result ≡ handed_cleanable state }
{
    match state {
        CleanState::Pending => Handed::Lined,
        CleanState::Armed | CleanState::Lined | CleanState::Spent => Handed::Skipped,
    }
}

/// Takes what is at the front of the pending list there. It leaves the list.
fn deliver(heap: &mut Heap, slot: Slot, handed: Handed)
    requires fit { IsPartOfMachine heap.old.graph }
    requires front { slice_get heap.old.graph.pending 0 ≡ Some slot }
    requires handed { handed ≡ handed_there (at heap.old.graph.objects slot) }
    ensures delivered { DeliversFront heap.old.graph slot handed heap.new.graph }
    ensures shaded { Shaded (λ s. (handed ≡ Handed.Queued) × (queue_in_front heap.old.graph ≡ Some s)) heap.old.marking
        heap.new.marking }
    ensures clock { heap.new.clock ≡ heap.old.clock }
{
    match handed {
        Handed::Queued => {
            enqueue(heap, slot);
            heap.take_pending();
        }
        Handed::Lined => {
            heap.take_pending();
            line_up(heap, slot);
        }
        Handed::Skipped | Handed::Nothing => {
            heap.take_pending();
        }
    }
}

/// A Pending cleanable is Lined, and goes to the end of the line.
pub(crate) fn line_up(heap: &mut Heap, slot: Slot)
    requires cleanable { IsTrue (some_and is_cleanable (at heap.old.graph.objects slot)) }
    requires root { IsTrue (is_own_root (at heap.old.graph.objects slot)) }
    requires pending { ¬ (slot ∈ heap.old.graph.pending) }
    requires line { ¬ (slot ∈ heap.old.graph.line) }
    ensures graph { heap.new.graph ≡ with_line
        (with_objects heap.old.graph (change_at heap.old.graph.objects slot
        (with_cleanable (in_clean_state state.Lined)))) (heap.old.graph.line ++ slot ∷ []) }
    ensures clock { heap.new.clock ≡ heap.old.clock }
    ensures marking { heap.new.marking ≡ heap.old.marking }
{
    heap.add_lined(slot);
    heap.set_clean_state(slot, CleanState::Lined);
}

//! One place of the heap.
ghost use Rattle.std.specs.Prelude.{◌≡◌, ℕ, ◌<◌, ◌++◌, IsTrue, Some, length, option_and_then};
ghost use Rattle.std.specs.Prelude.{option_map};
ghost use Rattle.jlr_machine.specs.declared.object.Object.TheVariants as object;
ghost use Rattle.jlr_machine.specs.Objects.{◌∈◌, any_referent, as_cleanable, as_reference, at};
ghost use Rattle.jlr_cells.specs.Contents.{kind_of};
ghost use Rattle.jlr_machine.specs.Collection.{is_ready};
ghost use Rattle.jlr_machine.specs.Choices.{collecting, kept_by, pended_by};
ghost use Rattle.jlr_marks.specs.Marking.{IsMarked, is_marked};
ghost use Rattle.jlr_process.specs.Settling.{cleared_graph, newly_pending, is_losing, loses, only_if, with_settled};

use jlr_barrier::Heap;
use jlr_cells::Kind;
use jlr_machine::choice::Choice;
use jlr_machine::object::{CleanState, Cleanable, RefState, Reference};
use jlr_types::Slot;

/// Whether a reference is ready to be handed over once it is cleared: it is Fresh, and registered with a queue.
fn is_ready(reference: Reference) -> bool
    ensures { result ≡ is_ready (object.Reference reference) }
{
    reference.state == RefState::Fresh && reference.queue.is_some()
}

/// A reference loses a referent that is not marked. If it was ready, it is put on the pending list.
fn settle_reference(heap: &mut Heap, slot: Slot, reference: Reference, choice: &mut Choice)
    requires here { at heap.old.graph.objects slot ≡ Some (object.Reference reference) }
    requires marked { IsMarked heap.old.marking slot }
    requires within { (x : ℕ) → reference.referent ≡ Some x → x < length heap.old.graph.objects }
    requires pending { IsTrue (loses heap.old.marking (object.Reference reference))
        → ¬ (slot ∈ heap.old.graph.pending) }
    requires line { IsTrue (loses heap.old.marking (object.Reference reference)) → ¬ (slot ∈ heap.old.graph.line) }
    requires pended { IsTrue (loses heap.old.marking (object.Reference reference))
        → length (pended_by choice.old) < choice.old.cells }
    requires collects { choice.old ≡ collecting choice.old (kept_by choice.old) (pended_by choice.old) }
    ensures graph { heap.new.graph ≡ with_settled heap.old.marking heap.old.graph slot (object.Reference reference) }
    ensures clock { heap.new.clock ≡ heap.old.clock }
    ensures marking { heap.new.marking ≡ heap.old.marking }
    ensures condemned { heap.new.condemned ≡ heap.old.condemned }
    ensures choice { choice.new ≡ collecting choice.old (kept_by choice.old)
        (pended_by choice.old ++ only_if (loses heap.old.marking (object.Reference reference)) slot) }
{
    let Some(referent) = reference.referent else {
        return;
    };
    if heap.is_marked(referent) {
        return;
    }
    heap.lose_referent(slot);
    if is_ready(reference) {
        heap.set_state(slot, RefState::Pending);
        heap.add_pending(slot);
        choice.pend(slot);
    }
}

/// Whether a cleanable is ready to be handed over once it is cleared: it is Armed.
fn is_armed(cleanable: Cleanable) -> bool
    ensures { result ≡ is_ready (object.Cleanable cleanable) }
{
    cleanable.state == CleanState::Armed
}

/// A cleanable loses a referent that is not marked. If it was Armed, it is put on the pending list.
fn settle_cleanable(heap: &mut Heap, slot: Slot, cleanable: Cleanable, choice: &mut Choice)
    requires here { at heap.old.graph.objects slot ≡ Some (object.Cleanable cleanable) }
    requires marked { IsMarked heap.old.marking slot }
    requires within { (x : ℕ) → cleanable.referent ≡ Some x → x < length heap.old.graph.objects }
    requires pending { IsTrue (loses heap.old.marking (object.Cleanable cleanable))
        → ¬ (slot ∈ heap.old.graph.pending) }
    requires line { IsTrue (loses heap.old.marking (object.Cleanable cleanable)) → ¬ (slot ∈ heap.old.graph.line) }
    requires pended { IsTrue (loses heap.old.marking (object.Cleanable cleanable))
        → length (pended_by choice.old) < choice.old.cells }
    requires collects { choice.old ≡ collecting choice.old (kept_by choice.old) (pended_by choice.old) }
    ensures graph { heap.new.graph ≡ with_settled heap.old.marking heap.old.graph slot (object.Cleanable cleanable) }
    ensures clock { heap.new.clock ≡ heap.old.clock }
    ensures marking { heap.new.marking ≡ heap.old.marking }
    ensures condemned { heap.new.condemned ≡ heap.old.condemned }
    ensures choice { choice.new ≡ collecting choice.old (kept_by choice.old)
        (pended_by choice.old ++ only_if (loses heap.old.marking (object.Cleanable cleanable)) slot) }
{
    let Some(referent) = cleanable.referent else {
        return;
    };
    if heap.is_marked(referent) {
        return;
    }
    heap.clear_cleanable(slot);
    if is_armed(cleanable) {
        heap.set_clean_state(slot, CleanState::Pending);
        heap.add_pending(slot);
        choice.pend(slot);
    }
}

/// What is at a slot, if it is marked, loses a referent that is not. If it was ready, it is put on the pending list,
/// and the choice is told.
pub(crate) fn settle(heap: &mut Heap, slot: Slot, choice: &mut Choice)
    requires within { (x : ℕ) → option_and_then any_referent (at heap.old.graph.objects slot) ≡ Some x
        → x < length heap.old.graph.objects }
    requires pending { IsTrue (is_losing heap.old.marking heap.old.graph.objects slot)
        → ¬ (slot ∈ heap.old.graph.pending) }
    requires line { IsTrue (is_losing heap.old.marking heap.old.graph.objects slot) → ¬ (slot ∈ heap.old.graph.line) }
    requires pended { IsTrue (is_losing heap.old.marking heap.old.graph.objects slot)
        → length (pended_by choice.old) < choice.old.cells }
    requires collects { choice.old ≡ collecting choice.old (kept_by choice.old) (pended_by choice.old) }
    ensures graph { heap.new.graph ≡ cleared_graph heap.old.marking heap.old.graph slot }
    ensures clock { heap.new.clock ≡ heap.old.clock }
    ensures marking { heap.new.marking ≡ heap.old.marking }
    ensures condemned { heap.new.condemned ≡ heap.old.condemned }
    ensures choice { choice.new ≡ collecting choice.old (kept_by choice.old)
        (pended_by choice.old ++ newly_pending heap.old.marking heap.old.graph.objects slot) }
{
    let kind = heap.kind(slot);
    if kind.is_none() || !heap.is_marked(slot) {
        return;
    }
    if let Some(reference) = reference_of(heap, slot, kind) {
        settle_reference(heap, slot, reference, choice);
    } else if let Some(cleanable) = cleanable_of(heap, slot, kind) {
        settle_cleanable(heap, slot, cleanable, choice);
    }
}

/// The reference at a slot, if its kind says that there is one. Other cells are not read.
fn reference_of(heap: &Heap, slot: Slot, kind: Option<Kind>) -> Option<Reference>
    requires { kind ≡ option_map kind_of (at heap.now.graph.objects slot) }
    ensures { result ≡ option_and_then as_reference (at heap.now.graph.objects slot) }
{
    match kind {
        Some(Kind::Reference(_)) => heap.reference(slot),
        _ => None,
    }
}

/// The cleanable at a slot, if its kind says that there is one. Other cells are not read.
fn cleanable_of(heap: &Heap, slot: Slot, kind: Option<Kind>) -> Option<Cleanable>
    requires { kind ≡ option_map kind_of (at heap.now.graph.objects slot) }
    ensures { result ≡ option_and_then as_cleanable (at heap.now.graph.objects slot) }
{
    match kind {
        Some(Kind::Cleanable) => heap.cleanable(slot),
        _ => None,
    }
}

//! The states of a reference, and the calls of the program on it (package `java.lang.ref`, classes `Reference`,
//! `SoftReference`, `PhantomReference` and `ReferenceQueue`).
//!
//! | State | Referent | Queue | Stands in | `get` | `clear` | `enqueue` | `poll` | Collector | Handler |
//! |---|---|---|---|---|---|---|---|---|---|
//! | Fresh, with a queue | any | its own | no list | the referent, never a phantom reference's | no referent, still Fresh | Queued, true | | Pending, where it clears it | |
//! | Fresh, without one | any | none | no list | the same | the same | no referent, false | | stays Fresh | |
//! | Pending | none | its own | the pending list | null | as it is | Queued, true; it stays on the pending list | | as it is | Queued |
//! | Queued | none | none | its queue, perhaps still the pending list | null | as it is | false | Removed, from the front | as it is | skipped |
//! | Removed | none | none | perhaps still the pending list | null | as it is | false | | as it is | skipped |
ghost use Rattle.std.specs.Prelude.{◌≡◌, ℕ, ◌<◌, IsTrue, None, Some, cond, is_some};
ghost use Rattle.std.specs.Prelude.{nat_eq, option_and_then};
ghost use Rattle.std.specs.Option.{option_eq};
ghost use Rattle.jlr_machine.specs.Objects.{as_members, at, change_at, is_queued, queue_ahead};
ghost use Rattle.jlr_machine.specs.Objects.{some_and, with_reference};
ghost use Rattle.jlr_machine.specs.Refusals.{front, is_queue, is_reference};
ghost use Rattle.jlr_machine.specs.Calls.{may_enqueue, unreferred};
ghost use Rattle.jlr_cells.specs.Contents.{next_in, referent_in};
ghost use Rattle.jlr_cells.specs.declared.shape.Shape.TheVariants as shape;
ghost use Rattle.jlr_marks.specs.Marking.{Shaded};
ghost use Rattle.jlr_barrier.specs.Graphs.{gotten_at, used_now, with_objects};
ghost use Rattle.jlr_barrier.specs.Snapshots.{IsInHand, IsObject};
ghost use Rattle.jlr_refs.specs.Parts.{Enqueues, IsPartOfMachine, Polls, reference_at};

use jlr_barrier::Heap;
use jlr_machine::object::{RefState, Reference};
use jlr_types::Slot;

/// What a reference gives (`Reference.get`): its referent, or nothing where it was cleared or is a phantom reference. A
/// soft reference that gives its referent was used now. What is given is shaded.
pub fn get(heap: &mut Heap, reference: Slot) -> Option<Slot>
    requires { (s : ℕ) → gotten_at heap.old.graph.objects reference ≡ Some s → IsObject heap.old.graph.objects s }
    ensures given { result ≡ gotten_at heap.old.graph.objects reference }
    ensures graph { heap.new.graph ≡ heap.old.graph }
    ensures clock { heap.new.clock ≡ cond (is_some result) (used_now heap.old.clock reference) heap.old.clock }
    ensures shaded { Shaded (λ s. gotten_at heap.old.graph.objects reference ≡ Some s) heap.old.marking
        heap.new.marking }
{
    heap.deref(reference)
}

/// Whether a reference of any kind refers to an object, or with none, whether it was cleared (`Reference.refersTo`).
pub fn refers_to(heap: &Heap, reference: Slot, object: Option<Slot>) -> bool
    ensures { result ≡ option_eq nat_eq (referent_in (at heap.now.graph.objects reference)) object }
{
    heap.referent(reference) == object
}

/// A reference loses its referent. It is not enqueued (`Reference.clear`).
pub fn clear(heap: &mut Heap, reference: Slot)
    requires { IsTrue (some_and is_reference (at heap.old.graph.objects reference)) }
    ensures graph { heap.new.graph ≡ with_objects heap.old.graph
        (change_at heap.old.graph.objects reference (with_reference unreferred)) }
    ensures clock { heap.new.clock ≡ heap.old.clock }
    ensures marking { heap.new.marking ≡ heap.old.marking }
{
    heap.lose_referent(reference);
}

/// A reference loses its referent, and goes to the end of its queue, if it has one and was not enqueued before
/// (`Reference.enqueue`). Whether it went there. That queue is shaded. It is in line, with what it calls, so that the
/// handler reads the reference once.
#[inline(always)]
pub fn enqueue(heap: &mut Heap, reference: Slot) -> bool
    requires fit { IsPartOfMachine heap.old.graph }
    requires reference { IsTrue (some_and is_reference (at heap.old.graph.objects reference)) }
    requires held { IsInHand heap.old reference }
    ensures answer { Some result ≡ option_and_then (λ r. Some (may_enqueue r))
        (reference_at heap.old.graph.objects reference) }
    ensures enqueued { Enqueues heap.old.graph reference heap.new.graph }
    ensures shaded { Shaded (λ s. next_in (at heap.old.graph.objects reference) ≡ Some s) heap.old.marking
        heap.new.marking }
    ensures clock { heap.new.clock ≡ heap.old.clock }
{
    let Some(queue) = queue_ahead(heap.reference(reference)) else {
        clear(heap, reference);
        return false;
    };
    heap.link(queue, reference);
    heap.cut_queue_edge(reference);
    heap.set_state(reference, RefState::Queued);
    clear(heap, reference);
    true
}

/// The queue that a reference may still be added to.
fn queue_ahead(reference: Option<Reference>) -> Option<Slot>
    ensures { result ≡ option_and_then queue_ahead reference }
{
    let reference = reference?;
    match reference.state {
        RefState::Fresh | RefState::Pending => reference.queue,
        RefState::Queued | RefState::Removed => None,
    }
}

/// Whether a reference was enqueued and not yet removed from its queue (`Reference.isEnqueued`).
pub fn is_enqueued(heap: &Heap, reference: Slot) -> bool
    ensures { result ≡ some_and (λ r. is_queued r.state) (reference_at heap.now.graph.objects reference) }
{
    match heap.reference(reference) {
        Some(found) => found.state == RefState::Queued,
        None => false,
    }
}

/// The reference at the front of a queue leaves it, if there is one, and is Removed (`ReferenceQueue.poll`). It is
/// shaded.
pub fn poll(heap: &mut Heap, queue: Slot) -> Option<Slot>
    requires fit { IsPartOfMachine heap.old.graph }
    requires queue { IsTrue (some_and is_queue (at heap.old.graph.objects queue)) }
    ensures front { result ≡ option_and_then front (option_and_then as_members (at heap.old.graph.objects queue)) }
    ensures polled { Polls heap.old.graph queue result heap.new.graph }
    ensures clock { heap.new.clock ≡ heap.old.clock }
    ensures shaded { Shaded (λ s. result ≡ Some s) heap.old.marking heap.new.marking }
{
    let member = heap.unlink(queue)?;
    heap.set_state(member, RefState::Removed);
    Some(member)
}

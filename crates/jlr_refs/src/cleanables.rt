//! The states of a cleanable, and the calls on it (package `java.lang.ref`, classes `Cleaner` and `Cleaner.Cleanable`).
//!
//! | State | Referent | Stands in | Collector | `hand_over` | `take_lined` | `spend` |
//! |---|---|---|---|---|---|---|
//! | Armed | the object that it was registered for | no list; it is a root by itself | Pending, where it clears the referent | | | Spent, without referent |
//! | Pending | none | the pending list; it is a root by itself | as it is | Lined, at the end of the line | | Spent; it stays on the pending list |
//! | Lined | none | the line | as it is | | Spent, and off the line: its action is run | Spent; it stays in the line |
//! | Spent | none | no list, or still the pending list or the line | as it is | skipped, and off the pending list | off the line | as it is |
//!
//! No call leads back: an action is run at most once.
ghost use Rattle.std.specs.Prelude.{◌≡◌, ◌↔◌, [], IfNone, IfSome, IsNone, IsTrue};
ghost use Rattle.jlr_machine.specs.declared.object.CleanState.TheVariants as state;
ghost use Rattle.jlr_machine.specs.Objects.{at, change_at, some_and, with_cleanable};
ghost use Rattle.jlr_machine.specs.Refusals.{is_cleanable};
ghost use Rattle.jlr_machine.specs.Calls.{spent};
ghost use Rattle.jlr_barrier.specs.Graphs.{with_line, with_objects};
ghost use Rattle.jlr_refs.specs.Parts.{HasNoneLined, TakesLined, lined_in};

use jlr_barrier::Heap;
use jlr_machine::object::{CleanState, Cleanable};
use jlr_types::Slot;

/// The first Lined cleanable leaves the line and is Spent, without referent. It is given as it was, with its slot, if
/// there is one. What stood before it was Spent already (`Cleanable.clean`), and leaves the line too. The time is
/// linear in how much does.
pub fn take_lined(heap: &mut Heap) -> Option<(Slot, Cleanable)>
    ensures none { IsNone result ↔ HasNoneLined heap.old.graph.objects heap.old.graph.line }
    ensures emptied { IfNone result (heap.new.graph ≡ with_line heap.old.graph []) }
    ensures lined { IfSome result (λ taken. taken.1.state ≡ state.Lined) }
    ensures taken { TakesLined heap.old.graph result heap.new.graph }
    ensures clock { heap.new.clock ≡ heap.old.clock }
    ensures marking { heap.new.marking ≡ heap.old.marking }
{
    while let Some(slot) = heap.take_lined_front() {
        if let Some(cleanable) = lined_at(heap, slot) {
            spend(heap, slot);
            return Some((slot, cleanable));
        }
    }
    None
}

/// The cleanable at a slot, if it is Lined.
fn lined_at(heap: &Heap, slot: Slot) -> Option<Cleanable>
    ensures { result ≡ lined_in (at heap.now.graph.objects slot) }
{
    let cleanable = heap.cleanable(slot)?;
    if cleanable.state != CleanState::Lined {
        return None;
    }
    Some(cleanable)
}

/// A cleanable has done what it was for (`Cleanable.clean`): it is Spent, and has no referent any more. A list in which
/// it stands keeps it.
fn spend(heap: &mut Heap, slot: Slot)
    requires { IsTrue (some_and is_cleanable (at heap.old.graph.objects slot)) }
    ensures graph { heap.new.graph ≡ with_objects heap.old.graph
        (change_at heap.old.graph.objects slot (with_cleanable spent)) }
    ensures clock { heap.new.clock ≡ heap.old.clock }
    ensures marking { heap.new.marking ≡ heap.old.marking }
{
    heap.spend(slot);
}

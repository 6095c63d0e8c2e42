//! A collection.
ghost use Rattle.std.specs.Prelude.{◌≡◌, ◌≤◌, ◌<◌, ℕ, [], List, length, true};
ghost use Rattle.jlr_machine.specs.declared.machine.Machine.{Machine};
ghost use Rattle.jlr_machine.specs.Objects.{◌∈◌};
ghost use Rattle.jlr_machine.specs.Choices.{collecting, nothing_chosen, pended_by};
ghost use Rattle.jlr_barrier.specs.Graphs.{counted, in_machine, in_use};
ghost use Rattle.jlr_barrier.specs.Snapshots.{RefersTo};
ghost use Rattle.jlr_process.specs.Flipping.{Flips, IsRooted};
ghost use Rattle.jlr_process.specs.Settling.{SettlesSlots, KeepsWhatIsMarked, is_losing};

use crate::settle::settle;
use jlr_barrier::Heap;
use jlr_machine::choice::Choice;

/// A collection that keeps what is marked (package `java.lang.ref`), where no cell is grey: the roots, and what they
/// lead to, are marked then. It takes no memory, and reads no cell but those that were discovered.
///
/// Of what is marked, each reference loses a referent that is not; all these were discovered while it was marked. Those
/// of them that were Fresh and registered with a queue become Pending, and go on the pending list. Then all that is not
/// marked is removed, and the collection is counted. The cells of what was removed are condemned: as many cells are
/// free as before.
pub fn flip(heap: &mut Heap, choice: &mut Choice)
    requires fit { (m : Machine) × IsRooted m heap.old.graph }
    requires no_grey { heap.old.marking.grey ≡ [] }
    requires nothing { choice.old ≡ nothing_chosen choice.old.cells }
    requires room { length heap.old.graph.objects ≤ choice.old.cells }
    ensures flips { (m : Machine) → IsRooted m heap.old.graph →
        Flips (in_machine m heap.old.graph) heap.old.marking choice.old choice.new (in_machine m heap.new.graph) }
    ensures mutators { heap.new.graph.mutators ≡ heap.old.graph.mutators }
    ensures clock { heap.new.clock ≡ counted heap.old.clock }
    ensures marking { heap.new.marking ≡ heap.old.marking }
    ensures free { in_use heap.new ≡ in_use heap.old }
{
    if heap.has_grey() {
        return;
    }
    choice.collect();
    settle_discovered(heap, choice);
    keep_marked(heap, choice);
    heap.count_collection();
}

/// What was discovered, if it is marked, loses a referent that is not. What was ready is put on the pending list, and
/// the choice is told. A slot that was discovered twice has nothing left to lose the second time. What was discovered
/// last comes first: the roots are scanned from the last one on, so that roots are settled in the order of their slots.
fn settle_discovered(heap: &mut Heap, choice: &mut Choice)
    requires within { (s x : ℕ) → RefersTo heap.old.graph.objects s x → x < length heap.old.graph.objects }
    requires pending { (s : ℕ) → is_losing heap.old.marking heap.old.graph.objects s ≡ true
        → ¬ (s ∈ heap.old.graph.pending) }
    requires line { (s : ℕ) → is_losing heap.old.marking heap.old.graph.objects s ≡ true → ¬ (s ∈ heap.old.graph.line) }
    requires bits { length heap.old.marking.bits ≡ length heap.old.graph.objects }
    requires room { length heap.old.graph.objects ≤ choice.old.cells }
    requires begun { choice.old ≡ collecting choice.old [] [] }
    ensures clears { (lost : List ℕ) × SettlesSlots heap.old.marking heap.old.marking.discovered heap.old.graph
        choice.old
        lost heap.new.graph choice.new }
    ensures clock { heap.new.clock ≡ heap.old.clock }
    ensures marking { heap.new.marking ≡ heap.old.marking }
    ensures condemned { heap.new.condemned ≡ heap.old.condemned }
{
    let mut place = heap.discovered_count();
    while place > 0 {
        place -= 1;
        match heap.discovered_at(place) {
            Some(slot) => settle(heap, slot, choice),
            None => unreachable!(),
        }
    }
}

/// Keeps what is marked, and tells the choice; removes all else.
fn keep_marked(heap: &mut Heap, choice: &mut Choice)
    requires bits { length heap.old.marking.bits ≡ length heap.old.graph.objects }
    requires no_grey { heap.old.marking.grey ≡ [] }
    requires room { length heap.old.graph.objects ≤ choice.old.cells }
    requires begun { choice.old ≡ collecting choice.old [] (pended_by choice.old) }
    ensures keeps { KeepsWhatIsMarked heap.old.marking heap.old.graph choice.old heap.new.graph choice.new }
    ensures clock { heap.new.clock ≡ heap.old.clock }
    ensures marking { heap.new.marking ≡ heap.old.marking }
    ensures free { in_use heap.new ≡ in_use heap.old }
{
    heap.keep_marked(choice);
}

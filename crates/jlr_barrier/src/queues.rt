//! The calls that change references and the members of queues.
ghost use Rattle.std.specs.Prelude.{◌≡◌, ◌++◌, ◌∷◌, ℕ, [], IsTrue, Some, drop, option_map};
ghost use Rattle.jlr_machine.specs.Objects.{◌∈◌, at, change_at, some_and, with_members, with_reference};
ghost use Rattle.jlr_machine.specs.Refusals.{is_queue, is_reference};
ghost use Rattle.jlr_machine.specs.Calls.{unreferred};
ghost use Rattle.jlr_cells.specs.Contents.{in_state, member_in, members_in, next_in, unregistered};
ghost use Rattle.jlr_marks.specs.Marking.{Shaded};
ghost use Rattle.jlr_barrier.specs.Graphs.{with_objects};
ghost use Rattle.jlr_barrier.specs.Snapshots.{IsInHand, IsObject};

use crate::heap::Heap;
use crate::shade::{shade_ahead, shade_target};
use jlr_machine::object::RefState;
use jlr_types::Slot;

impl Heap {
    /// The reference at a slot loses its referent.
    pub fn lose_referent(&mut self, slot: Slot)
        requires { IsTrue (some_and is_reference (at self.old.graph.objects slot)) }
        ensures graph { self.new.graph ≡ with_objects self.old.graph
            (change_at self.old.graph.objects slot (with_reference unreferred)) }
        ensures clock { self.new.clock ≡ self.old.clock }
        ensures marking { self.new.marking ≡ self.old.marking }
        ensures condemned { self.new.condemned ≡ self.old.condemned }
    {
        self.cells.clear_referent(slot);
    }

    /// The reference at a slot comes into another state, in which the same queue is ahead of it, or none.
    pub fn set_state(&mut self, slot: Slot, state: RefState)
        requires reference { IsTrue (some_and is_reference (at self.old.graph.objects slot)) }
        requires edge { next_in (option_map (with_reference (in_state state)) (at self.old.graph.objects slot))
            ≡ next_in (at self.old.graph.objects slot) }
        ensures graph { self.new.graph ≡ with_objects self.old.graph
            (change_at self.old.graph.objects slot (with_reference (in_state state))) }
        ensures clock { self.new.clock ≡ self.old.clock }
        ensures marking { self.new.marking ≡ self.old.marking }
        ensures condemned { self.new.condemned ≡ self.old.condemned }
    {
        self.cells.set_state(slot, state);
    }

    /// The reference at a slot is registered with no queue any more, and its edge to it is gone. The queue that was
    /// ahead is shaded.
    #[inline(always)]
    pub fn cut_queue_edge(&mut self, slot: Slot)
        requires reference { IsTrue (some_and is_reference (at self.old.graph.objects slot)) }
        requires object { (s : ℕ) → next_in (at self.old.graph.objects slot) ≡ Some s
            → IsObject self.old.graph.objects s }
        ensures graph { self.new.graph ≡ with_objects self.old.graph
            (change_at self.old.graph.objects slot (with_reference unregistered)) }
        ensures clock { self.new.clock ≡ self.old.clock }
        ensures shaded { Shaded (λ s. next_in (at self.old.graph.objects slot) ≡ Some s) self.old.marking
            self.new.marking }
        ensures condemned { self.new.condemned ≡ self.old.condemned }
    {
        shade_ahead(&self.cells, slot, &mut self.marks);
        self.cells.cut_queue(slot);
    }

    /// The member at the front of a queue, if there is a queue at this slot and it has members.
    pub fn front(&self, queue: Slot) -> Option<Slot>
        ensures { result ≡ member_in (at self.now.graph.objects queue) 0 }
    {
        self.cells.first_member(queue)
    }

    /// The queue at a slot gets a member at its end: an object that is a member of no queue.
    pub fn link(&mut self, queue: Slot, member: Slot)
        requires queue { IsTrue (some_and is_queue (at self.old.graph.objects queue)) }
        requires object { IsObject self.old.graph.objects member }
        requires apart { (s : ℕ) → member ∈ members_in (at self.old.graph.objects s) → ⊥ }
        requires held { IsInHand self.old member }
        ensures graph { self.new.graph ≡ with_objects self.old.graph
            (change_at self.old.graph.objects queue (with_members (λ members. members ++ member ∷ []))) }
        ensures clock { self.new.clock ≡ self.old.clock }
        ensures marking { self.new.marking ≡ self.old.marking }
        ensures condemned { self.new.condemned ≡ self.old.condemned }
    {
        self.cells.push_member(queue, member);
    }

    /// The member at the front of the queue at a slot leaves it, if there is one, and is shaded.
    pub fn unlink(&mut self, queue: Slot) -> Option<Slot>
        requires queue { IsTrue (some_and is_queue (at self.old.graph.objects queue)) }
        requires object { (s : ℕ) → member_in (at self.old.graph.objects queue) 0 ≡ Some s
            → IsObject self.old.graph.objects s }
        ensures front { result ≡ member_in (at self.old.graph.objects queue) 0 }
        ensures graph { self.new.graph ≡ with_objects self.old.graph
            (change_at self.old.graph.objects queue (with_members (drop 1))) }
        ensures clock { self.new.clock ≡ self.old.clock }
        ensures shaded { Shaded (λ s. result ≡ Some s) self.old.marking self.new.marking }
        ensures condemned { self.new.condemned ≡ self.old.condemned }
    {
        let member = self.cells.pop_member(queue)?;
        shade_target(Some(member), &mut self.marks);
        Some(member)
    }
}

//! New guards, each with the cleanable that finishes what it stands for.
ghost use Rattle.std.specs.Prelude.{◌≡◌, ◌+◌, ◌<◌, ◌==◌, ◌||◌, ◌↔◌, cond, IfNone, IfSome, IsNone, IsTrue, length};
ghost use Rattle.jlr_machine.specs.Objects.{at, change_at, occupied, some_and, with_cleanable};
ghost use Rattle.jlr_machine.specs.Refusals.{is_cleanable};
ghost use Rattle.jlr_cells.specs.Contents.{watching};
ghost use Rattle.jlr_barrier.specs.Graphs.{in_use, made_now, with_objects};
ghost use Rattle.jlr_barrier.specs.Guards.{AreFree, with_guard};
ghost use Rattle.jlr_barrier.specs.Snapshots.{IsInHand};
ghost use Rattle.jlr_marks.specs.Marking.{Blackened, Marking, marked};

use crate::heap::Heap;
use jlr_cells::Shape;
use jlr_types::{ActionNo, Rid, Slot, Work};

impl Heap {
    /// A new guard and its cleanable, which waits for it to finish a resource, in two cells that held no object, if
    /// there are two. Where fewer than two are free, all that are condemned are swept. Both were made now, and are
    /// black.
    pub fn allocate_guard(&mut self, rid: Rid, action: ActionNo) -> Option<(Slot, Slot)>
        ensures full { IsNone result ↔ (length self.old.graph.objects < occupied self.old.graph.objects + 2) }
        ensures none { IfNone result ((self.new.graph ≡ self.old.graph) × (self.new.clock ≡ self.old.clock)
            × (self.new.marking ≡ self.old.marking) × (self.new.condemned ≡ self.old.condemned)) }
        ensures free { IfSome result (λ made. AreFree self.old.graph.objects made.0 made.1) }
        ensures made { IfSome result (λ made. self.new.graph
            ≡ with_objects self.old.graph (with_guard self.old.graph.objects made.0 made.1 rid action)) }
        ensures clock { IfSome result (λ made. self.new.clock ≡ made_now (made_now self.old.clock made.0) made.1) }
        ensures black { IfSome result (λ made. (m : Marking) × Blackened made.1 self.old.marking m
            × Blackened made.0 m self.new.marking) }
        ensures count { IfSome result (λ _. marked self.new.marking ≡ marked self.old.marking + 2) }
        ensures condemned { IfSome result (λ _. self.new.condemned
            ≡ cond (in_use self.old == length self.old.graph.objects
            || in_use self.old + 1 == length self.old.graph.objects) 0 self.old.condemned) }
    {
        if self.vacant_count() < 2 {
            return None;
        }
        let cleanable = self.allocate(&Shape::Cleanable {
            referent: None,
            action,
            work: Work::Resource(rid),
        })?;
        let guard = self.allocate(&Shape::Guard { rid, cleanable })?;
        self.watch(cleanable, guard);
        Some((guard, cleanable))
    }

    /// The cleanable at a slot waits for an object from now on.
    fn watch(&mut self, slot: Slot, referent: Slot)
        requires cleanable { IsTrue (some_and is_cleanable (at self.old.graph.objects slot)) }
        requires held { IsInHand self.old referent }
        ensures graph { self.new.graph ≡ with_objects self.old.graph
            (change_at self.old.graph.objects slot (with_cleanable (watching referent))) }
        ensures clock { self.new.clock ≡ self.old.clock }
        ensures marking { self.new.marking ≡ self.old.marking }
        ensures condemned { self.new.condemned ≡ self.old.condemned }
    {
        self.cells.watch(slot, referent);
    }
}

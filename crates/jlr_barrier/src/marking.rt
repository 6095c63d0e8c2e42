//! The mark set, as a collector uses it.
ghost use Rattle.std.specs.Prelude.{◌≡◌, ◌↔◌, ℕ, IfSome, ◌+◌, ◌^◌, ◌<◌, ◌≤◌, [], Some, false, length};
ghost use Rattle.std.specs.Prelude.{option_and_then, slice_get};
ghost use Rattle.jlr_types.specs.declared.RefKind.TheVariants.{Soft};
ghost use Rattle.jlr_machine.specs.Choices.{collecting, kept_by, pended_by};
ghost use Rattle.jlr_machine.specs.Objects.{at, some_and, ◌∈◌};
ghost use Rattle.jlr_machine.specs.Refusals.{is_record};
ghost use Rattle.jlr_machine.specs.Edges.{referent};
ghost use Rattle.jlr_sets.specs.SlotSets.{slots_of};
ghost use Rattle.jlr_cells.specs.Showing.{shown};
ghost use Rattle.jlr_barrier.specs.Graphs.{held, in_use, with_objects};
ghost use Rattle.jlr_marks.specs.Marking.{IsMarked, Shaded, is_marked, place, unmarked, upcoming};
ghost use Rattle.jlr_barrier.specs.Snapshots.{HoldsWhole, IsEdge, IsObject, RefersTo};
ghost use Rattle.jlr_barrier.specs.Parts.{IsBegun, ticks_at};
ghost use Rattle.jlr_barrier.specs.Scans.{Scanned};

use crate::heap::Heap;
use crate::lists::{LINE, PENDING, shade_list};
use crate::shade::{scan_part, shade_cleanables, shade_names, shade_roots, shade_target};
use jlr_cells::Kind;
use jlr_machine::choice::Choice;
use jlr_types::{Meter, RefKind, Slot};

impl Heap {
    /// Whether a slot is marked.
    pub fn is_marked(&self, slot: Slot) -> bool
        requires { slot < length self.now.graph.objects }
        ensures { result ≡ is_marked self.now.marking slot }
    {
        self.marks.is_marked(slot)
    }

    /// A marking begins: what the handles, the fences, the names, the pending list and the line hold, and the
    /// cleanables that are Armed or Pending, is marked and grey, and nothing else.
    pub fn open_marking(&mut self)
        requires { (x : ℕ) → x ∈ held self.old.graph → IsObject self.old.graph.objects x }
        ensures graph { self.new.graph ≡ self.old.graph }
        ensures clock { self.new.clock ≡ self.old.clock }
        ensures shaded { Shaded (λ x. x ∈ held self.old.graph) (unmarked (length self.old.graph.objects))
            self.new.marking }
        ensures condemned { self.new.condemned ≡ self.old.condemned }
    {
        self.marks.reset();
        shade_roots(&self.roots, &mut self.marks);
        shade_names(&self.names, &mut self.marks);
        shade_list(&self.lists, PENDING, &mut self.marks);
        shade_list(&self.lists, LINE, &mut self.marks);
        shade_cleanables(&self.cells, &mut self.marks);
    }

    /// Whether a slot is grey. Where none is, what is marked holds the roots, and with an object all that its strong
    /// edges lead to.
    pub fn has_grey(&self) -> bool
        ensures exact { result ≡ false ↔ (self.now.marking.grey ≡ []) }
        ensures whole { self.now.marking.grey ≡ [] → HoldsWhole self.now }
        ensures bits { length self.now.marking.bits ≡ length self.now.graph.objects }
    {
        self.marks.has_grey()
    }

    /// The grey slot that comes next, if there is one. It is marked, and an object. Fewer ticks were spent on it than
    /// it takes.
    pub fn next_grey(&self) -> Option<Slot>
        ensures next { result ≡ upcoming self.now.marking }
        ensures there { IfSome result (λ slot. IsMarked self.now.marking slot × IsObject self.now.graph.objects slot) }
        ensures begun { IfSome result (λ slot. IsBegun self.now.graph.objects (place self.now.marking slot) slot) }
    {
        self.marks.next_grey()
    }

    /// Follows a part of the strong edges of the object at the grey slot that comes next: one tick. Of an array a part
    /// are at most 64 elements, of any other object all its edges. Where there is more to follow, it is grey again and
    /// comes next. Otherwise it is black, and discovered, if it refers to an object that is not marked. No object takes
    /// more than 64 ticks. Answers whether it is a plain object with fields.
    #[inline(always)]
    pub fn scan(&mut self, slot: Slot, meter: &mut Meter) -> bool
        requires next { upcoming self.old.marking ≡ Some slot }
        requires ticks { meter.old + 1 < 2 ^ 64 }
        requires objects { (x : ℕ) → IsEdge self.old.graph.objects slot x → IsObject self.old.graph.objects x }
        requires within { (x : ℕ) → RefersTo self.old.graph.objects slot x → x < length self.old.graph.objects }
        ensures graph { self.new.graph ≡ self.old.graph }
        ensures clock { self.new.clock ≡ self.old.clock }
        ensures scanned { Scanned self.old.graph.objects slot self.old.marking self.new.marking }
        ensures few { ticks_at self.old.graph.objects slot ≤ 64 }
        ensures plain { result ≡ some_and is_record (at self.old.graph.objects slot) }
        ensures ticked { meter.new ≡ meter.old + 1 }
        ensures condemned { self.new.condemned ≡ self.old.condemned }
    {
        scan_part(&self.cells, slot, meter, &mut self.marks)
    }

    /// A collection that kept nothing so far keeps all that is marked, and all else is no more: its cells are
    /// condemned, beside those that were, and as many are free as before. No cell is grey.
    pub fn keep_marked(&mut self, choice: &mut Choice)
        requires cells { length self.old.marking.bits ≤ choice.old.cells }
        requires none { kept_by choice.old ≡ [] }
        requires no_grey { self.old.marking.grey ≡ [] }
        ensures graph { self.new.graph ≡ with_objects self.old.graph
            (shown self.old.marking.bits self.old.graph.objects) }
        ensures clock { self.new.clock ≡ self.old.clock }
        ensures marking { self.new.marking ≡ self.old.marking }
        ensures free { in_use self.new ≡ in_use self.old }
        ensures choice { choice.new ≡ collecting choice.old (slots_of self.old.marking.bits) (pended_by choice.old) }
    {
        self.marks.keep_all(choice);
        self.cells.keep_only(self.marks.marked());
    }

    /// How many slots are discovered.
    pub fn discovered_count(&self) -> usize
        ensures { result ≡ length self.now.marking.discovered }
    {
        self.marks.discovered_count()
    }

    /// A discovered slot, by its place in their list, if there are so many.
    pub fn discovered_at(&self, place: usize) -> Option<Slot>
        ensures { result ≡ slice_get self.now.marking.discovered place }
    {
        self.marks.discovered_at(place)
    }

    /// What the object at a slot refers to, if it is a soft reference that was not cleared.
    pub fn soft_referent(&self, slot: Slot) -> Option<Slot>
        ensures { result ≡ option_and_then (referent Soft) (at self.now.graph.objects slot) }
    {
        match self.cells.kind(slot) {
            Some(Kind::Reference(RefKind::Soft)) => self.cells.referent(slot),
            _ => None,
        }
    }

    /// Marks a slot. If it was not marked before, it is grey then.
    pub fn shade(&mut self, slot: Slot)
        requires { IsObject self.old.graph.objects slot }
        ensures graph { self.new.graph ≡ self.old.graph }
        ensures clock { self.new.clock ≡ self.old.clock }
        ensures shaded { Shaded (λ x. Some slot ≡ Some x) self.old.marking self.new.marking }
        ensures condemned { self.new.condemned ≡ self.old.condemned }
    {
        shade_target(Some(slot), &mut self.marks);
    }
}

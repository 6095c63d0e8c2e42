//! The objects of the heap, in cells.
ghost use Rattle.std.specs.Prelude.{◌≡◌, ℕ, ◌+◌, ◌-◌, ◌==◌, cond, ◌++◌, ◌∷◌, [], ◌^◌, ◌<◌, ◌↔◌, IfErr, IfOk, IfNone};
ghost use Rattle.std.specs.Prelude.{IfSome, IsErr, IsNone, IsTrue, MatchOption, None, false, ◌≤◌, List, Some, drop};
ghost use Rattle.std.specs.Prelude.{is_some, length, option_and_then, option_map, slice_get, true};
ghost use Rattle.jlr_machine.specs.Objects.{◌∈◌, as_cleanable, as_guard, as_reference, at, change_at};
ghost use Rattle.jlr_machine.specs.Objects.{is_cleaner, occupied, set_at, some_and};
ghost use Rattle.jlr_machine.specs.Edges.{edges_from};
ghost use Rattle.jlr_machine.specs.Edges.Chain.{Strong};
ghost use Rattle.jlr_machine.specs.Objects.{with_cleanable, with_field, with_members, with_reference};
ghost use Rattle.jlr_machine.specs.Refusals.{is_cleanable, is_guard, is_plain, is_queue, is_record, is_reference};
ghost use Rattle.jlr_machine.specs.Calls.{spent, unreferred};
ghost use Rattle.jlr_cells.specs.Contents.{field_at, is_ref, in_clean_state, in_state, kind_of, member_in, members_in};
ghost use Rattle.jlr_cells.specs.Contents.{object_of, referent_in, unregistered, watching, cleanable_without_referent};
ghost use Rattle.jlr_machine.specs.declared.object.Object.TheVariants.{Plain};
ghost use Rattle.jlr_machine.specs.declared.object.Contents.TheVariants.{Elements as ElementsOf};
ghost use Rattle.jlr_cells.specs.Changes.{altered_cleanable, altered_reference};
ghost use Rattle.jlr_cells.specs.Links.{linked, linked_in};
ghost use Rattle.jlr_cells.specs.Visits.{edges_told, elements_lent, elements_of};
ghost use Rattle.jlr_sets.specs.SlotSets.{is_in};
ghost use Rattle.jlr_cells.specs.Showing.{shown};
ghost use Rattle.jlr_cells.specs.Holding.{all_free, cells_in_use};

use crate::cell::Cell;
use crate::change::{CleanChange, RefChange};
use crate::objects::arrays::{free_array, free_arrays};
use crate::objects::lists::clear_lists;
use crate::objects::occupancy::Occupancy;
use crate::{Elements, Kind, Links, Shape, Store, Visited};
use jlr_machine::object::{CleanState, Cleanable, Guard, Object, RefState, Reference};
use jlr_machine::table::Table;
use jlr_sets::cell_set::CellSet;
use jlr_types::{FieldValue, Meter, Slot};
use std::alloc::{AllocError, Global};
use std::marker::Model;

/// The objects of the heap, by slot.
pub struct Objects {
    store: Store,
    /// Which cells hold an object. What lies in another is nothing to callers.
    occupancy: Occupancy,
    /// The queues that were given a member since they were made, and some that were not.
    listed: CellSet,
}

// By hand: each exit of a caller then has one call, where a derived drop writes out every field.
impl Drop for Objects {
    fn drop(self) {
        let Objects {
            store: _,
            occupancy: _,
            listed: _,
        } = self;
    }
}

impl Model for Objects {
    ghost use Rattle.jlr_cells.specs.Showing.{shown};
    ghost use Rattle.jlr_cells.specs.Holding.{AreShown, Holding};

    ghost Value = { Holding };

    ghost view = { λ a. record { objects = shown a.occupancy.places a.store; condemned = a.occupancy.condemned } };

    ghost invariant = { λ a. AreShown a.store a.occupancy.places a.occupancy.used a.listed };
}

impl Objects {
    /// So many cells, all free.
    ///
    /// # Errors
    /// `AllocError` where there is no memory for them.
    pub fn new(alloc: Global, cells: u32) -> Result<Self, AllocError>
        ensures { IfOk result (λ objects. objects ≡ all_free cells) }
    {
        // For the prover: dropped by a call, so that no return path proves the drop of each of its parts.
        let listed = CellSet::new(alloc, cells)?;
        let Ok(occupancy) = Occupancy::new(alloc, cells) else {
            drop(listed);
            return Err(AllocError);
        };
        let Ok(store) = Store::new(alloc, cells) else {
            drop((listed, occupancy));
            return Err(AllocError);
        };
        Ok(Objects {
            store,
            occupancy,
            listed,
        })
    }

    /// How many cells there are. Their slots are the numbers below.
    pub fn cell_count(&self) -> u32
        ensures { result ≡ length self.now.objects }
    {
        self.occupancy.cell_count()
    }

    /// How many cells are free: they hold no object, and are not condemned.
    pub fn free_count(&self) -> u32
        ensures { result + cells_in_use self.now ≡ length self.now.objects }
    {
        self.occupancy.free_count()
    }

    /// How many cells hold no object: they are free, or condemned.
    pub fn vacant_count(&self) -> u32
        ensures { result + occupied self.now.objects ≡ length self.now.objects }
    {
        self.occupancy.vacant_count()
    }

    /// A new object in a free cell. Where no cell is free, all that are condemned are swept first; where none is left
    /// then, there is no new object.
    pub fn take(&mut self, shape: &Shape) -> Option<Slot>
        ensures full { IsNone result ↔ (occupied self.old.objects ≡ length self.old.objects) }
        ensures none { IfNone result (self.new ≡ self.old) }
        ensures free { IfSome result (λ slot. (slot < length self.old.objects) × (at self.old.objects slot ≡ None)) }
        ensures taken { IfSome result (λ slot. self.new.objects ≡ set_at self.old.objects slot (object_of shape.now)) }
        ensures condemned { IfSome result (λ _. self.new.condemned
            ≡ cond (cells_in_use self.old == length self.old.objects) 0 self.old.condemned) }
    {
        if !self.make_free() {
            return None;
        }
        let slot = self.occupancy.take();
        self.store.put(slot, Cell::new(shape));
        Some(slot)
    }

    /// A new array of these elements in a free cell. Where no cell is free, all that are condemned are swept first.
    ///
    /// # Errors
    /// The elements, where no cell is left then. Nothing has changed.
    pub fn take_array(&mut self, elements: Elements) -> Result<Slot, Elements>
        ensures full { IsErr result ↔ (occupied self.old.objects ≡ length self.old.objects) }
        ensures back { IfErr result (λ e. (e ≡ elements) × (self.new ≡ self.old)) }
        ensures free { IfOk result (λ slot. (slot < length self.old.objects) × (at self.old.objects slot ≡ None)) }
        ensures taken { IfOk result (λ slot. self.new.objects
            ≡ set_at self.old.objects slot (Plain (ElementsOf elements))) }
        ensures condemned { IfOk result (λ _. self.new.condemned
            ≡ cond (cells_in_use self.old == length self.old.objects) 0 self.old.condemned) }
    {
        if !self.make_free() {
            return Err(elements);
        }
        let slot = self.occupancy.take();
        self.store.put(slot, Cell::Array(elements));
        Ok(slot)
    }

    /// Where no cell is free, all that are condemned are swept. Answers whether a cell is free then.
    fn make_free(&mut self) -> bool
        ensures objects { self.new.objects ≡ self.old.objects }
        ensures condemned { self.new.condemned ≡ cond (cells_in_use self.old == length self.old.objects) 0
            self.old.condemned }
        ensures room { result ≡ true → cells_in_use self.new < length self.new.objects }
        ensures full { result ≡ false → (occupied self.old.objects ≡ length self.old.objects) × (self.new ≡ self.old) }
    {
        if self.free_count() > 0 {
            return true;
        }
        self.sweep_all();
        self.free_count() > 0
    }

    /// The objects at the slots of a set stay; all others are no more, and their cells are condemned. No cell is
    /// written, but that queues among them lose their members.
    pub fn keep_only(&mut self, kept: &CellSet)
        requires places { length kept.now ≡ length self.old.objects }
        requires objects { (s : ℕ) → is_in kept.now s ≡ true → IsTrue (is_some (at self.old.objects s)) }
        ensures objects { self.new.objects ≡ shown kept.now self.old.objects }
        ensures condemned { cells_in_use self.new ≡ cells_in_use self.old }
    {
        clear_lists(&mut self.store, &mut self.listed, kept);
        self.occupancy.keep(kept);
    }

    /// Condemned cells become free: so many, or all where there are no more.
    pub fn sweep(&mut self, budget: u32)
        ensures objects { self.new.objects ≡ self.old.objects }
        ensures condemned { self.new.condemned ≡ self.old.condemned - budget }
    {
        if self.occupancy.condemned_count() <= budget {
            self.sweep_all();
            return;
        }
        for _cell in 0..budget {
            self.sweep_one();
        }
    }

    /// All condemned cells become free.
    pub fn sweep_all(&mut self)
        ensures objects { self.new.objects ≡ self.old.objects }
        ensures condemned { self.new.condemned ≡ 0 }
    {
        free_arrays(&mut self.store, self.occupancy.occupied());
        self.occupancy.sweep_all();
    }

    /// A condemned cell becomes free.
    fn sweep_one(&mut self)
        requires { 0 < self.old.condemned }
        ensures objects { self.new.objects ≡ self.old.objects }
        ensures condemned { self.new.condemned + 1 ≡ self.old.condemned }
    {
        let slot = self.occupancy.sweep_one();
        free_array(&mut self.store, slot);
    }

    /// Whether there is an object at a slot.
    fn is_occupied(&self, slot: Slot) -> bool
        ensures { result ≡ is_some (at self.now.objects slot) }
    {
        if slot.number() >= self.occupancy.cell_count() {
            return false;
        }
        self.occupancy.is_occupied(slot)
    }

    /// Of which kind the object at a slot is, if there is one.
    pub fn kind(&self, slot: Slot) -> Option<Kind>
        ensures kind { result ≡ option_map kind_of (at self.now.objects slot) }
        ensures object { is_some result ≡ is_some (at self.now.objects slot) }
    {
        if !self.is_occupied(slot) {
            return None;
        }
        self.store.kind(slot)
    }

    /// A slot not below `from` such that no cleanable is between; or none, where there is no cleanable from there on.
    pub fn next_cleanable(&self, from: u32) -> Option<Slot>
        ensures { MatchOption result ((s : ℕ) → from ≤ s → some_and is_cleanable (at self.now.objects s) ≡ false)
            (λ slot. (from ≤ slot) × (slot < length self.now.objects)
            × ((s : ℕ) → from ≤ s → s < slot → some_and is_cleanable (at self.now.objects s) ≡ false)) }
    {
        self.store.next_cleanable(from)
    }

    /// Whether there is a plain object at a slot: one with fields, or an array.
    pub fn is_plain(&self, slot: Slot) -> bool
        ensures { result ≡ some_and is_plain (at self.now.objects slot) }
    {
        matches!(self.kind(slot), Some(Kind::Plain | Kind::Array))
    }

    /// Whether there is a plain object with fields at a slot.
    pub fn is_record(&self, slot: Slot) -> bool
        ensures { result ≡ some_and is_record (at self.now.objects slot) }
    {
        matches!(self.kind(slot), Some(Kind::Plain))
    }

    /// Whether there is a reference at a slot.
    pub fn is_reference(&self, slot: Slot) -> bool
        ensures { result ≡ some_and is_reference (at self.now.objects slot) }
    {
        matches!(self.kind(slot), Some(Kind::Reference(_)))
    }

    /// Whether there is a queue at a slot.
    pub fn is_queue(&self, slot: Slot) -> bool
        ensures { result ≡ some_and is_queue (at self.now.objects slot) }
    {
        matches!(self.kind(slot), Some(Kind::Queue))
    }

    /// Whether there is a cleaner at a slot.
    pub fn is_cleaner(&self, slot: Slot) -> bool
        ensures { result ≡ some_and is_cleaner (at self.now.objects slot) }
    {
        matches!(self.kind(slot), Some(Kind::Cleaner))
    }

    /// Whether there is a cleanable at a slot.
    pub fn is_cleanable(&self, slot: Slot) -> bool
        ensures { result ≡ some_and is_cleanable (at self.now.objects slot) }
    {
        self.store.is_cleanable(slot) && self.is_occupied(slot)
    }

    /// Whether there is a guard at a slot.
    pub fn is_guard(&self, slot: Slot) -> bool
        ensures { result ≡ some_and is_guard (at self.now.objects slot) }
    {
        matches!(self.kind(slot), Some(Kind::Guard))
    }

    /// Whether there is a plain object at a slot that has this field or element.
    pub fn has_field(&self, slot: Slot, field: usize) -> bool
        ensures { result ≡ is_some (field_at self.now.objects slot field) }
    {
        if !self.is_occupied(slot) {
            return false;
        }
        self.store.has_field(slot, field)
    }

    /// What a field or an element holds.
    pub fn field(&self, slot: Slot, field: usize) -> FieldValue
        requires { IsTrue (is_some (field_at self.now.objects slot field)) }
        ensures { field_at self.now.objects slot field ≡ Some result }
    {
        self.store.field(slot, field)
    }

    /// Sets a field or an element, and answers what it held. Into an element goes no integer.
    pub fn set_field(&mut self, slot: Slot, field: usize, value: FieldValue) -> FieldValue
        requires field { IsTrue (is_some (field_at self.old.objects slot field)) }
        requires within { (s : ℕ) → value ≡ FieldValue.Ref (Some s) → s < length self.old.objects }
        requires fits { some_and is_record (at self.old.objects slot) ≡ false → IsTrue (is_ref value) }
        ensures old { field_at self.old.objects slot field ≡ Some result }
        ensures objects { self.new.objects ≡ change_at self.old.objects slot (with_field field value) }
        ensures condemned { self.new.condemned ≡ self.old.condemned }
    {
        self.store.set_field(slot, field, value)
    }

    /// The reference at a slot, if there is one.
    pub fn reference(&self, slot: Slot) -> Option<Reference>
        ensures { result ≡ option_and_then as_reference (at self.now.objects slot) }
    {
        if !self.is_occupied(slot) {
            return None;
        }
        self.store.reference(slot)
    }

    /// What the reference at a slot refers to, if there is a reference and it was not cleared.
    pub fn referent(&self, slot: Slot) -> Option<Slot>
        ensures { result ≡ referent_in (at self.now.objects slot) }
    {
        if !self.is_occupied(slot) {
            return None;
        }
        self.store.referent(slot)
    }

    /// The reference at a slot loses its referent.
    pub fn clear_referent(&mut self, slot: Slot)
        requires { IsTrue (some_and is_reference (at self.old.objects slot)) }
        ensures objects { self.new.objects ≡ change_at self.old.objects slot (with_reference unreferred) }
        ensures condemned { self.new.condemned ≡ self.old.condemned }
    {
        self.change_reference(slot, RefChange::NoReferent);
    }

    /// The reference at a slot comes into another state.
    pub fn set_state(&mut self, slot: Slot, state: RefState)
        requires { IsTrue (some_and is_reference (at self.old.objects slot)) }
        ensures objects { self.new.objects ≡ change_at self.old.objects slot (with_reference (in_state state)) }
        ensures condemned { self.new.condemned ≡ self.old.condemned }
    {
        self.change_reference(slot, RefChange::State(state));
    }

    /// The reference at a slot is registered with no queue any more.
    pub fn cut_queue(&mut self, slot: Slot)
        requires { IsTrue (some_and is_reference (at self.old.objects slot)) }
        ensures objects { self.new.objects ≡ change_at self.old.objects slot (with_reference unregistered) }
        ensures condemned { self.new.condemned ≡ self.old.condemned }
    {
        self.change_reference(slot, RefChange::NoQueue);
    }

    /// Something changes in the reference at a slot.
    #[inline(always)]
    fn change_reference(&mut self, slot: Slot, change: RefChange)
        requires { IsTrue (some_and is_reference (at self.old.objects slot)) }
        ensures objects { self.new.objects
            ≡ change_at self.old.objects slot (with_reference (altered_reference change)) }
        ensures condemned { self.new.condemned ≡ self.old.condemned }
    {
        self.store.change_reference(slot, change);
    }

    /// The cleanable at a slot, if there is one.
    pub fn cleanable(&self, slot: Slot) -> Option<Cleanable>
        ensures { result ≡ option_and_then as_cleanable (at self.now.objects slot) }
    {
        if !self.is_occupied(slot) {
            return None;
        }
        self.store.cleanable(slot)
    }

    /// The guard at a slot, if there is one.
    pub fn guard(&self, slot: Slot) -> Option<Guard>
        ensures { result ≡ option_and_then as_guard (at self.now.objects slot) }
    {
        if !self.is_occupied(slot) {
            return None;
        }
        self.store.guard(slot)
    }

    /// The cleanable at a slot comes into another state.
    pub fn set_clean_state(&mut self, slot: Slot, state: CleanState)
        requires { IsTrue (some_and is_cleanable (at self.old.objects slot)) }
        ensures objects { self.new.objects ≡ change_at self.old.objects slot (with_cleanable (in_clean_state state)) }
        ensures condemned { self.new.condemned ≡ self.old.condemned }
    {
        self.change_cleanable(slot, CleanChange::State(state));
    }

    /// The cleanable at a slot loses its referent.
    pub fn clear_cleanable(&mut self, slot: Slot)
        requires { IsTrue (some_and is_cleanable (at self.old.objects slot)) }
        ensures objects { self.new.objects
            ≡ change_at self.old.objects slot (with_cleanable cleanable_without_referent) }
        ensures condemned { self.new.condemned ≡ self.old.condemned }
    {
        self.change_cleanable(slot, CleanChange::NoReferent);
    }

    /// The cleanable at a slot waits for an object from now on.
    pub fn watch(&mut self, slot: Slot, referent: Slot)
        requires { IsTrue (some_and is_cleanable (at self.old.objects slot)) }
        ensures objects { self.new.objects ≡ change_at self.old.objects slot (with_cleanable (watching referent)) }
        ensures condemned { self.new.condemned ≡ self.old.condemned }
    {
        self.change_cleanable(slot, CleanChange::Referent(referent));
    }

    /// The cleanable at a slot has done what it was for: it is spent, and has no referent any more.
    pub fn spend(&mut self, slot: Slot)
        requires { IsTrue (some_and is_cleanable (at self.old.objects slot)) }
        ensures objects { self.new.objects ≡ change_at self.old.objects slot (with_cleanable spent) }
        ensures condemned { self.new.condemned ≡ self.old.condemned }
    {
        self.change_cleanable(slot, CleanChange::Spent);
    }

    /// Something changes in the cleanable at a slot.
    #[inline(always)]
    fn change_cleanable(&mut self, slot: Slot, change: CleanChange)
        requires { IsTrue (some_and is_cleanable (at self.old.objects slot)) }
        ensures objects { self.new.objects
            ≡ change_at self.old.objects slot (with_cleanable (altered_cleanable change)) }
        ensures condemned { self.new.condemned ≡ self.old.condemned }
    {
        self.store.change_cleanable(slot, change);
    }

    /// How many members the queue at a slot has; 0, if there is no queue.
    pub fn member_count(&self, queue: Slot) -> u32
        ensures { result ≡ length (members_in (at self.now.objects queue)) }
    {
        if !self.is_occupied(queue) {
            return 0;
        }
        self.store.member_count(queue)
    }

    /// The member at the front of the queue at a slot, if there is a queue and it has members.
    pub fn first_member(&self, queue: Slot) -> Option<Slot>
        ensures { result ≡ member_in (at self.now.objects queue) 0 }
    {
        if !self.is_occupied(queue) {
            return None;
        }
        self.store.first_member(queue)
    }

    /// The member after another of the queue at a slot, if that is not the last.
    pub fn next_member(&self, queue: Slot, member: Slot) -> Option<Slot>
        requires { member ∈ members_in (at self.now.objects queue) }
        ensures { (before after : List ℕ) → members_in (at self.now.objects queue) ≡ before ++ member ∷ after
            → result ≡ slice_get after 0 }
    {
        self.store.next_member(queue, member)
    }

    /// The queue at a slot gets a member at its end, which stands in no queue.
    pub fn push_member(&mut self, queue: Slot, member: Slot)
        requires queue { IsTrue (some_and is_queue (at self.old.objects queue)) }
        requires within { member < length self.old.objects }
        requires apart { (s : ℕ) → member ∈ members_in (at self.old.objects s) → ⊥ }
        ensures objects { self.new.objects ≡ change_at self.old.objects queue
            (with_members (λ members. members ++ member ∷ [])) }
        ensures condemned { self.new.condemned ≡ self.old.condemned }
    {
        self.store.push_member(queue, member);
        self.listed.insert(queue);
    }

    /// The member at the front of the queue at a slot leaves it, if there is one.
    pub fn pop_member(&mut self, queue: Slot) -> Option<Slot>
        requires { IsTrue (some_and is_queue (at self.old.objects queue)) }
        ensures front { result ≡ member_in (at self.old.objects queue) 0 }
        ensures objects { self.new.objects ≡ change_at self.old.objects queue (with_members (drop 1)) }
        ensures condemned { self.new.condemned ≡ self.old.condemned }
    {
        self.store.pop_member(queue)
    }

    /// The objects as plain data.
    ///
    /// # Errors
    /// `AllocError` where there is no memory for them.
    pub fn image(&self, alloc: Global) -> Result<Table<Object>, AllocError>
        ensures { IfOk result (λ objects. objects ≡ self.now.objects) }
    {
        self.store.image(alloc, self.occupancy.occupied())
    }

    /// Visits the object at a slot: one tick. It lends the links of a plain object with fields, whose cell it does not
    /// read: those of its first four fields, and those of the others, if one of them ever referred to an object. Of any
    /// other object it lends none.
    #[inline(always)]
    pub fn visit(&self, slot: Slot, meter: &mut Meter) -> Option<(&Links, Option<&Links>)>
        requires object { IsTrue (is_some (at self.now.objects slot)) }
        requires ticks { meter.old + 1 < 2 ^ 64 }
        ensures plain { is_some result ≡ some_and is_record (at self.now.objects slot) }
        ensures edges { IfSome result (λ links. edges_from Strong self.now.objects slot ≡ linked links.0.now
            ++ linked_in links.1) }
        ensures ticked { meter.new ≡ meter.old + 1 }
    {
        self.store.visit(slot, meter)
    }

    /// What the strong edges are of the object at a slot that is no plain one with fields, but those of a queue to its
    /// members: it lends the elements of an array, and tells the queue that a reference may still be added to, or a
    /// guard's cleanable.
    pub fn visit_other(&self, slot: Slot) -> Visited<'_>
        requires object { IsTrue (is_some (at self.now.objects slot)) }
        requires other { some_and is_record (at self.now.objects slot) ≡ false }
        ensures edges { edges_from Strong self.now.objects slot
            ≡ edges_told result (members_in (at self.now.objects slot)) }
        ensures array { elements_lent result ≡ option_and_then elements_of (at self.now.objects slot) }
    {
        self.store.visit_other(slot)
    }
}

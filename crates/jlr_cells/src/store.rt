//! The cells, as they lie.
ghost use Rattle.std.specs.Prelude.{◌≡◌, ℕ, ◌+◌, ◌++◌, ◌∷◌, [], ◌^◌, ◌<◌, IfOk, IfSome};
ghost use Rattle.std.specs.Prelude.{IsTrue, MatchOption, None, false, true, ◌≤◌, List, Some, cond, drop, is_some};
ghost use Rattle.std.specs.Prelude.{length, option_and_then, option_map, replicate, slice_get, slice_set};
ghost use Rattle.jlr_machine.specs.Objects.{◌∈◌, as_cleanable, as_guard, as_reference, at, change_at};
ghost use Rattle.jlr_machine.specs.Objects.{occupied, some_and};
ghost use Rattle.jlr_sets.specs.SlotSets.{is_in};
ghost use Rattle.jlr_links.specs.Lists.{list_at};
ghost use Rattle.jlr_cells.specs.Showing.{shown};
ghost use Rattle.jlr_machine.specs.Edges.{edges_from};
ghost use Rattle.jlr_machine.specs.Edges.Chain.{Strong};
ghost use Rattle.jlr_machine.specs.Objects.{with_cleanable, with_field, with_members, with_reference};
ghost use Rattle.jlr_machine.specs.Refusals.{is_cleanable, is_plain, is_queue, is_record, is_reference};
ghost use Rattle.jlr_cells.specs.Contents.{field_at, is_array, is_ref, kind_of, member_in};
ghost use Rattle.jlr_cells.specs.Contents.{members_in, object_in, objects_in, referent_in};
ghost use Rattle.jlr_cells.specs.Contents.{with_list, with_lists};
ghost use Rattle.jlr_cells.specs.Changes.{altered_cleanable, altered_reference};
ghost use Rattle.jlr_cells.specs.Links.{cell_links, linked, linked_in, no_links};
ghost use Rattle.jlr_machine.specs.declared.object.Object.TheVariants.{Plain};
ghost use Rattle.jlr_cells.specs.Visits.{edges_told, elements_lent, elements_of};

use crate::cell::Cell;
use crate::change::{CleanChange, RefChange};
use crate::columns::Columns;
use crate::elements::Elements;
use crate::kinds::Kinds;
use crate::links::{Links, Visited, target_of};
use crate::shape::Kind;
use jlr_links::Links as Lists;
use jlr_links::column::Column;
use jlr_machine::object::{Cleanable, Guard, Object, Reference};
use jlr_machine::table::Table;
use jlr_sets::cell_set::CellSet;
use jlr_types::{FieldValue, Meter, Slot};
use std::alloc::{AllocError, Global};
use std::marker::Model;

/// What lies in the cells, by slot, whether it still counts or not. The kinds stand by themselves once more, side by
/// side, so that a pass over all cells reads only those that it has to; and so does what the fields of plain objects
/// refer to, so that marking reads no cell of those. These two stand in front, so that the instructions of the marker's
/// loop are short.
#[derive(Drop)]
pub struct Store {
    links: Columns,
    kinds: Kinds,
    cells: Column<Cell>,
    /// By slot, the members of the queue there from the front on; of what is no queue there are none.
    queues: Lists,
}

impl Model for Store {
    ghost use Rattle.std.specs.Prelude.{List, Option};
    ghost use Rattle.jlr_machine.specs.declared.object.Object.{Object};

    ghost Value = { List (Option Object) };

    ghost use Rattle.jlr_cells.specs.Contents.{objects_in, with_lists};
    ghost use Rattle.jlr_cells.specs.Keeping.{AreWhole};

    ghost view = { λ a. with_lists (objects_in a.cells) a.queues.lists };

    ghost invariant = { λ a. AreWhole a.cells a.queues.lists a.queues.slots a.kinds a.links };
}

impl Store {
    /// So many cells, with nothing in them.
    ///
    /// # Errors
    /// `AllocError` where there is no memory for them.
    pub fn new(alloc: Global, count: u32) -> Result<Self, AllocError>
        ensures { IfOk result (λ store. store ≡ replicate count None) }
    {
        // For the prover: dropped by a call, so that no return path proves the drop of each of its parts.
        let cells = Column::new(alloc, count)?;
        let Ok(queues) = Lists::new(alloc, count, count) else {
            drop(cells);
            return Err(AllocError);
        };
        let Ok(kinds) = Kinds::new(alloc, count) else {
            drop((cells, queues));
            return Err(AllocError);
        };
        let Ok(links) = Columns::new(alloc, count) else {
            drop((cells, queues, kinds));
            return Err(AllocError);
        };
        Ok(Store {
            links,
            kinds,
            cells,
            queues,
        })
    }

    /// How many cells there are. Their slots are the numbers below.
    pub fn cell_count(&self) -> u32
        ensures { result ≡ length self.now }
    {
        self.cells.len() as u32
    }

    /// A cell is put at a slot. What lay there before, if anything, had no members; the memory of an array is given
    /// back.
    pub(crate) fn put(&mut self, slot: Slot, cell: Cell)
        requires within { slot < length self.old }
        requires members { members_in (at self.old slot) ≡ [] }
        requires links { cell_links cell ≡ no_links }
        ensures { self.new ≡ slice_set self.old slot (object_in cell) }
    {
        let place = slot.number() as usize;
        self.kinds.set(slot, cell.kind());
        self.links.clear(slot);
        self.cells[place] = cell;
    }

    /// Of which kind the object at a slot is, if there is one.
    pub fn kind(&self, slot: Slot) -> Option<Kind>
        ensures kind { result ≡ option_map kind_of (at self.now slot) }
        ensures object { is_some result ≡ is_some (at self.now slot) }
    {
        self.kinds.get(slot)
    }

    /// A slot not below `from` such that no cleanable is between; or none, where there is no cleanable from there on.
    pub fn next_cleanable(&self, from: u32) -> Option<Slot>
        ensures { MatchOption result ((s : ℕ) → from ≤ s → some_and is_cleanable (at self.now s) ≡ false)
            (λ slot. (from ≤ slot) × (slot < length self.now)
            × ((s : ℕ) → from ≤ s → s < slot → some_and is_cleanable (at self.now s) ≡ false)) }
    {
        self.kinds.next_cleanable(from)
    }

    /// Whether there is a plain object at a slot: one with fields, or an array.
    pub fn is_plain(&self, slot: Slot) -> bool
        ensures { result ≡ some_and is_plain (at self.now slot) }
    {
        matches!(self.kind(slot), Some(Kind::Plain | Kind::Array))
    }

    /// Whether there is a plain object with fields at a slot.
    pub fn is_record(&self, slot: Slot) -> bool
        ensures { result ≡ some_and is_record (at self.now slot) }
    {
        matches!(self.kind(slot), Some(Kind::Plain))
    }

    /// Whether there is an array at a slot.
    pub(crate) fn is_array(&self, slot: Slot) -> bool
        ensures { result ≡ some_and is_array (at self.now slot) }
    {
        matches!(self.kind(slot), Some(Kind::Array))
    }

    /// A slot not below `from` outside a set, such that no array is between outside the set; or none, where there is no
    /// array outside the set from there on.
    pub(crate) fn next_array(&self, kept: &CellSet, from: u32) -> Option<Slot>
        ensures { MatchOption result ((s : ℕ) → from ≤ s → is_in kept.now s ≡ false
            → some_and is_array (at self.now s) ≡ false)
            (λ slot. (from ≤ slot) × (slot < length self.now) × (is_in kept.now slot ≡ false)
            × ((s : ℕ) → from ≤ s → s < slot → is_in kept.now s ≡ false → some_and is_array (at self.now s) ≡ false)) }
    {
        self.kinds.next_array(kept, from)
    }

    /// Whether there is a queue at a slot.
    pub fn is_queue(&self, slot: Slot) -> bool
        ensures { result ≡ some_and is_queue (at self.now slot) }
    {
        matches!(self.kind(slot), Some(Kind::Queue))
    }

    /// Whether there is a cleanable at a slot.
    pub fn is_cleanable(&self, slot: Slot) -> bool
        ensures { result ≡ some_and is_cleanable (at self.now slot) }
    {
        matches!(self.kind(slot), Some(Kind::Cleanable))
    }

    /// Whether there is a plain object at a slot that has this field or element.
    pub fn has_field(&self, slot: Slot, field: usize) -> bool
        ensures { result ≡ is_some (field_at self.now slot field) }
    {
        field_of(&self.cells, slot, field).is_some()
    }

    /// What a field or an element holds.
    pub fn field(&self, slot: Slot, field: usize) -> FieldValue
        requires { IsTrue (is_some (field_at self.now slot field)) }
        ensures { field_at self.now slot field ≡ Some result }
    {
        field_of(&self.cells, slot, field).unwrap()
    }

    /// Sets a field or an element, and answers what it held. Into an element goes no integer.
    pub fn set_field(&mut self, slot: Slot, field: usize, value: FieldValue) -> FieldValue
        requires field { IsTrue (is_some (field_at self.old slot field)) }
        requires within { (s : ℕ) → value ≡ FieldValue.Ref (Some s) → s < length self.old }
        requires fits { some_and is_record (at self.old slot) ≡ false → IsTrue (is_ref value) }
        ensures old { field_at self.old slot field ≡ Some result }
        ensures new { self.new ≡ change_at self.old slot (with_field field value) }
    {
        if self.is_record(slot) {
            return self.set_typed(slot, field, value);
        }
        match value {
            FieldValue::Ref(target) => FieldValue::Ref(self.set_element(slot, field, target)),
            FieldValue::Int(_) => unreachable!(),
        }
    }

    /// Sets an element, and answers what it referred to.
    fn set_element(&mut self, slot: Slot, place: usize, target: Option<Slot>) -> Option<Slot>
        requires field { IsTrue (is_some (field_at self.old slot place)) }
        requires array { some_and is_record (at self.old slot) ≡ false }
        requires within { (s : ℕ) → target ≡ Some s → s < length self.old }
        ensures old { field_at self.old slot place ≡ Some (FieldValue.Ref result) }
        ensures new { self.new ≡ change_at self.old slot (with_field place (FieldValue.Ref target)) }
    {
        let cell = &mut self.cells[slot.number() as usize];
        cell.set_element(place, target)
    }

    /// Sets a field of an object with fields, and answers what it held.
    fn set_typed(&mut self, slot: Slot, field: usize, value: FieldValue) -> FieldValue
        requires field { IsTrue (is_some (field_at self.old slot field)) }
        requires record { some_and is_record (at self.old slot) ≡ true }
        requires within { (s : ℕ) → value ≡ FieldValue.Ref (Some s) → s < length self.old }
        ensures old { field_at self.old slot field ≡ Some result }
        ensures new { self.new ≡ change_at self.old slot (with_field field value) }
    {
        let place = slot.number() as usize;
        let target = target_of(&value);
        let cell = &mut self.cells[place];
        let old = cell.set_field(field, value);
        self.links.set(slot, field, target);
        old
    }

    /// The reference at a slot, if there is one.
    pub fn reference(&self, slot: Slot) -> Option<Reference>
        ensures { result ≡ option_and_then as_reference (at self.now slot) }
    {
        match self.cells.get(slot.number() as usize) {
            Some(cell) => cell.reference(),
            None => None,
        }
    }

    /// What the reference at a slot refers to, if there is a reference and it was not cleared.
    pub fn referent(&self, slot: Slot) -> Option<Slot>
        ensures { result ≡ referent_in (at self.now slot) }
    {
        match self.cells.get(slot.number() as usize) {
            Some(cell) => cell.referent(),
            None => None,
        }
    }

    /// Something changes in the reference at a slot.
    #[inline(always)]
    pub(crate) fn change_reference(&mut self, slot: Slot, change: RefChange)
        requires { IsTrue (some_and is_reference (at self.old slot)) }
        ensures { self.new ≡ change_at self.old slot (with_reference (altered_reference change)) }
    {
        let cell = &mut self.cells[slot.number() as usize];
        cell.change_reference(change);
    }

    /// The cleanable at a slot, if there is one.
    pub fn cleanable(&self, slot: Slot) -> Option<Cleanable>
        ensures { result ≡ option_and_then as_cleanable (at self.now slot) }
    {
        match self.cells.get(slot.number() as usize) {
            Some(cell) => cell.cleanable(),
            None => None,
        }
    }

    /// The guard at a slot, if there is one.
    pub fn guard(&self, slot: Slot) -> Option<Guard>
        ensures { result ≡ option_and_then as_guard (at self.now slot) }
    {
        match self.cells.get(slot.number() as usize) {
            Some(cell) => cell.guard(),
            None => None,
        }
    }

    /// Something changes in the cleanable at a slot.
    #[inline(always)]
    pub(crate) fn change_cleanable(&mut self, slot: Slot, change: CleanChange)
        requires { IsTrue (some_and is_cleanable (at self.old slot)) }
        ensures { self.new ≡ change_at self.old slot (with_cleanable (altered_cleanable change)) }
    {
        let cell = &mut self.cells[slot.number() as usize];
        cell.change_cleanable(change);
    }

    /// How many members the queue at a slot has; 0, if there is no queue.
    pub fn member_count(&self, queue: Slot) -> u32
        ensures { result ≡ length (members_in (at self.now queue)) }
    {
        if !self.is_queue(queue) {
            return 0;
        }
        self.queues.count(queue.number())
    }

    /// The member at the front of the queue at a slot, if there is a queue and it has members.
    pub fn first_member(&self, queue: Slot) -> Option<Slot>
        ensures { result ≡ member_in (at self.now queue) 0 }
    {
        if !self.is_queue(queue) {
            return None;
        }
        self.queues.front(queue.number())
    }

    /// The member after another of the queue at a slot, if that is not the last.
    pub fn next_member(&self, queue: Slot, member: Slot) -> Option<Slot>
        requires { member ∈ members_in (at self.now queue) }
        ensures { (before after : List ℕ) → members_in (at self.now queue) ≡ before ++ member ∷ after
            → result ≡ slice_get after 0 }
    {
        self.queues.next(queue.number(), member)
    }

    /// The queue at a slot gets a member at its end, which stands in no queue.
    pub fn push_member(&mut self, queue: Slot, member: Slot)
        requires queue { IsTrue (some_and is_queue (at self.old queue)) }
        requires within { member < length self.old }
        requires apart { (s : ℕ) → member ∈ members_in (at self.old s) → ⊥ }
        ensures { self.new ≡ change_at self.old queue (with_members (λ members. members ++ member ∷ [])) }
    {
        self.queues.append(queue.number(), member);
    }

    /// The member at the front of the queue at a slot leaves it, if there is one.
    pub fn pop_member(&mut self, queue: Slot) -> Option<Slot>
        requires { IsTrue (some_and is_queue (at self.old queue)) }
        ensures front { result ≡ member_in (at self.old queue) 0 }
        ensures popped { self.new ≡ change_at self.old queue (with_members (drop 1)) }
    {
        self.queues.take_front(queue.number())
    }

    /// The queue at a slot has no members any more.
    pub(crate) fn clear_members(&mut self, queue: Slot)
        requires { queue < length self.old }
        ensures { self.new ≡ change_at self.old queue (with_members (λ _. [])) }
    {
        self.queues.clear(queue.number());
    }

    /// The objects in the cells of a set, as plain data.
    ///
    /// # Errors
    /// `AllocError` where there is no memory for them.
    pub fn image(&self, alloc: Global, occupied: &CellSet) -> Result<Table<Object>, AllocError>
        requires { length occupied.now ≡ length self.now }
        ensures { IfOk result (λ objects. objects ≡ shown occupied.now self.now) }
    {
        Ok(Table::from_vec(images(alloc, &self.cells, &self.queues, occupied)?))
    }

    /// Visits the object at a slot: one tick. It lends the links of a plain object with fields, whose cell it does not
    /// read: those of its first four fields, and those of the others, if one of them ever referred to an object. Of any
    /// other object it lends none.
    #[inline(always)]
    pub fn visit(&self, slot: Slot, meter: &mut Meter) -> Option<(&Links, Option<&Links>)>
        requires object { IsTrue (is_some (at self.now slot)) }
        requires ticks { meter.old + 1 < 2 ^ 64 }
        ensures plain { is_some result ≡ some_and is_record (at self.now slot) }
        ensures edges { IfSome result (λ links. edges_from Strong self.now slot ≡ linked links.0.now
            ++ linked_in links.1) }
        ensures ticked { meter.new ≡ meter.old + 1 }
    {
        meter.tick();
        if self.finds_record(slot) {
            return Some(self.links.of(slot));
        }
        None
    }

    /// Whether the object at a slot is a plain one with fields.
    fn finds_record(&self, slot: Slot) -> bool
        requires { IsTrue (is_some (at self.now slot)) }
        ensures { result ≡ some_and is_record (at self.now slot) }
    {
        matches!(self.kind_here(slot), Some(Kind::Plain))
    }

    /// Of which kind the object at a slot is.
    fn kind_here(&self, slot: Slot) -> Option<Kind>
        requires { IsTrue (is_some (at self.now slot)) }
        ensures { result ≡ option_map kind_of (at self.now slot) }
    {
        self.kinds.at(slot)
    }

    /// What the strong edges are of the object at a slot that is no plain one with fields, but those of a queue to its
    /// members: it lends the elements of an array, and tells the queue that a reference may still be added to, or a
    /// guard's cleanable.
    pub fn visit_other(&self, slot: Slot) -> Visited<'_>
        requires object { IsTrue (is_some (at self.now slot)) }
        requires other { some_and is_record (at self.now slot) ≡ false }
        ensures edges { edges_from Strong self.now slot ≡ edges_told result (members_in (at self.now slot)) }
        ensures array { elements_lent result ≡ option_and_then elements_of (at self.now slot) }
    {
        let place = slot.number() as usize;
        if self.is_array(slot) {
            return Visited::Array(self.cells[place].elements());
        }
        Visited::Other {
            next: self.cells[place].next(),
        }
    }
}

fn images(
    alloc: Global,
    cells: &Column<Cell>,
    queues: &Lists,
    occupied: &CellSet,
) -> Result<Vec<Option<Object>>, AllocError>
    requires small { length cells.now < 2 ^ 32 }
    requires lists { length queues.now.lists ≡ length cells.now }
    requires places { length occupied.now ≡ length cells.now }
    ensures { IfOk result (λ objects. objects.items
        ≡ shown occupied.now (with_lists (objects_in cells.now) queues.now.lists)) }
{
    let mut objects = Vec::with_capacity(alloc, cells.len())?;
    for slot in 0..cells.len() {
        let cell = &cells[slot];
        objects.push(image_of(alloc, cell, queues, slot as u32, occupied)?)?;
    }
    Ok(objects)
}

/// The object in a cell, if the cell is in the set.
fn image_of(
    alloc: Global,
    cell: &Cell,
    queues: &Lists,
    slot: u32,
    occupied: &CellSet,
) -> Result<Option<Object>, AllocError>
    requires list { slot < length queues.now.lists }
    requires place { slot < length occupied.now }
    ensures { IfOk result (λ object. object ≡ cond (is_in occupied.now slot)
        (with_list (list_at queues.now.lists slot) (object_in cell.now)) None) }
{
    if !occupied.contains(Slot::new(slot)) {
        return Ok(None);
    }
    cell.image(alloc, queues, slot)
}

fn field_of(cells: &Column<Cell>, slot: Slot, field: usize) -> Option<FieldValue>
    ensures { result ≡ field_at (objects_in cells.now) slot field }
{
    match cells.get(slot.number() as usize) {
        Some(cell) => cell.field(field),
        None => None,
    }
}

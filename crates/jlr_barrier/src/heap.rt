//! The heap, its objects and their fields.
ghost use Rattle.std.specs.Prelude.{◌≡◌, ℕ, ◌+◌, ◌-◌, ◌==◌, cond, ◌++◌, ◌<◌, ◌≤◌, ◌↔◌, option_to_list, IfErr};
ghost use Rattle.std.specs.Prelude.{IfNone, IfOk, IfSome, IsErr, IsNone, IsTrue, None, Some, false, is_some, length};
ghost use Rattle.std.specs.Prelude.{option_and_then, option_map};
ghost use Rattle.jlr_machine.specs.Objects.{◌∈◌, any_referent, as_reference, at, change_at, occupied, set_at};
ghost use Rattle.jlr_machine.specs.Objects.{some_and, with_field};
ghost use Rattle.jlr_machine.specs.Refusals.{is_plain, is_queue, is_record, is_reference};
ghost use Rattle.jlr_cells.specs.Contents.{field_at, is_ref, kind_of, object_of, referent_in};
ghost use Rattle.jlr_machine.specs.Edges.{slots_in, strong_edges};
ghost use Rattle.jlr_machine.specs.declared.object.Object.TheVariants.{Plain};
ghost use Rattle.jlr_machine.specs.declared.object.Contents.TheVariants.{Elements as ElementsOf};
ghost use Rattle.jlr_marks.specs.Marking.{Blackened, Shaded, marked};
ghost use Rattle.jlr_barrier.specs.Graphs.{empty_known, in_use, made_now, with_objects};
ghost use Rattle.jlr_barrier.specs.Snapshots.{IsInHand, IsObject};

use crate::lists::LISTS;
use crate::shade::shade_value;
use jlr_cells::objects::Objects;
use jlr_cells::{Elements, Kind, Shape};
use jlr_links::Links;
use jlr_machine::object::{Object, Reference};
use jlr_machine::table::Table;
use jlr_marks::Marks;
use jlr_roots::{Names, Roots};
use jlr_types::{FieldValue, Limits, Slot};
use std::alloc::{AllocError, Global};
use std::marker::Model;

/// The objects of a heap with their roots. Contracts see the part of the machine that it keeps, its clock and its mark
/// set. What the marker's loop reads stands in front, so that the instructions of the loop are short.
pub struct Heap {
    pub(crate) marks: Marks,
    pub(crate) cells: Objects,
    pub(crate) roots: Roots,
    pub(crate) names: Names,
    /// The pending list and the cleaner's line. A slot stands in one of them at most.
    pub(crate) lists: Links,
    /// By slot, how many collections had finished when the object was made or last gave its referent.
    pub(crate) last_gets: Vec<u64>,
    /// How many collections have finished. It saturates.
    pub(crate) collections: u64,
    /// How many cells were taken since a collection finished last. It saturates.
    pub(crate) since_collection: u32,
}

// By hand: each exit of a caller then has one call, where a derived drop writes out every field.
impl Drop for Heap {
    fn drop(self) {
        let Heap {
            marks: _,
            cells: _,
            roots: _,
            names: _,
            lists: _,
            last_gets: _,
            collections: _,
            since_collection: _,
        } = self;
    }
}

impl Model for Heap {
    ghost use Rattle.std.specs.Prelude.{length};
    ghost use Rattle.jlr_links.specs.Lists.{list_at};
    ghost use Rattle.jlr_barrier.specs.Graphs.{Known, swept};
    ghost use Rattle.jlr_barrier.specs.Snapshots.{FitsTogether};

    ghost Value = { Known };

    ghost view = { λ h. record {
      graph = record {
        objects = h.cells.objects;
        mutators =
            h.roots;
        names = h.names;
        pending = list_at h.lists.lists 0;
        line = list_at h.lists.lists 1;
      };
      clock = record { last_gets = h.last_gets.items; collections = h.collections; since = h.since_collection };
      marking = h.marks;
      condemned = h.cells.condemned;
    } };

    // How many cells are condemned does not matter to what has to fit together.
    ghost invariant = { λ h. FitsTogether (swept
        (record {
          objects = h.cells.objects;
          mutators = h.roots;
          names = h.names;
          pending = list_at h.lists.lists 0;
          line = list_at h.lists.lists 1;
        })
        (record { last_gets = h.last_gets.items; collections = h.collections; since = h.since_collection })
        h.marks) h.lists.slots (length h.lists.lists) };
}

impl Heap {
    /// A heap without objects or names, whose mutators are not joined. All room is made at once.
    ///
    /// # Errors
    /// `AllocError` where the room cannot be had.
    pub fn new(alloc: Global, limits: Limits) -> Result<Self, AllocError>
        ensures { IfOk result (λ heap. heap ≡ empty_known limits.cells limits.sessions) }
    {
        let cells = cell_count(limits);
        // For the prover: dropped by a call, so that no return path proves the drop of each of its parts.
        let last_gets = vec![in alloc; 0; cells as usize]?;
        let Ok(marks) = Marks::new(alloc, cells) else {
            drop(last_gets);
            return Err(AllocError);
        };
        let Ok(lists) = Links::new(alloc, LISTS, cells) else {
            drop((last_gets, marks));
            return Err(AllocError);
        };
        let Ok(names) = Names::new(alloc) else {
            drop((last_gets, marks, lists));
            return Err(AllocError);
        };
        let Ok(roots) = Roots::new(alloc, session_count(limits)) else {
            drop((last_gets, marks, lists, names));
            return Err(AllocError);
        };
        let Ok(cells) = Objects::new(alloc, cells) else {
            drop((last_gets, marks, lists, names, roots));
            return Err(AllocError);
        };
        Ok(Heap {
            marks,
            cells,
            roots,
            names,
            lists,
            last_gets,
            collections: 0,
            since_collection: 0,
        })
    }

    /// How many cells there are. Their slots are the numbers below.
    pub fn cell_count(&self) -> u32
        ensures count { result ≡ length self.now.graph.objects }
        ensures few { result ≤ 65536 }
    {
        self.cells.cell_count()
    }

    /// How many cells are free: they hold no object, and are not condemned.
    pub fn free_count(&self) -> u32
        ensures { result + in_use self.now ≡ length self.now.graph.objects }
    {
        self.cells.free_count()
    }

    /// How many cells hold no object: they are free, or condemned.
    pub fn vacant_count(&self) -> u32
        ensures { result + occupied self.now.graph.objects ≡ length self.now.graph.objects }
    {
        self.cells.vacant_count()
    }

    /// Condemned cells become free: so many, or all where there are no more. The machine sees no difference.
    pub fn sweep(&mut self, budget: u32)
        ensures graph { self.new.graph ≡ self.old.graph }
        ensures clock { self.new.clock ≡ self.old.clock }
        ensures marking { self.new.marking ≡ self.old.marking }
        ensures condemned { self.new.condemned ≡ self.old.condemned - budget }
    {
        self.cells.sweep(budget);
    }

    /// All condemned cells become free. The machine sees no difference.
    pub fn sweep_all(&mut self)
        ensures graph { self.new.graph ≡ self.old.graph }
        ensures clock { self.new.clock ≡ self.old.clock }
        ensures marking { self.new.marking ≡ self.old.marking }
        ensures condemned { self.new.condemned ≡ 0 }
    {
        self.cells.sweep_all();
    }

    /// Of which kind the object at a slot is, if there is one.
    pub fn kind(&self, slot: Slot) -> Option<Kind>
        ensures kind { result ≡ option_map kind_of (at self.now.graph.objects slot) }
        ensures object { is_some result ≡ is_some (at self.now.graph.objects slot) }
    {
        self.cells.kind(slot)
    }

    /// Whether there is a plain object at a slot: one with fields, or an array.
    pub fn is_plain(&self, slot: Slot) -> bool
        ensures { result ≡ some_and is_plain (at self.now.graph.objects slot) }
    {
        self.cells.is_plain(slot)
    }

    /// Whether there is a reference at a slot.
    pub fn is_reference(&self, slot: Slot) -> bool
        ensures { result ≡ some_and is_reference (at self.now.graph.objects slot) }
    {
        self.cells.is_reference(slot)
    }

    /// Whether there is a queue at a slot.
    pub fn is_queue(&self, slot: Slot) -> bool
        ensures { result ≡ some_and is_queue (at self.now.graph.objects slot) }
    {
        self.cells.is_queue(slot)
    }

    /// Whether there is a plain object with fields at a slot.
    pub fn is_record(&self, slot: Slot) -> bool
        ensures { result ≡ some_and is_record (at self.now.graph.objects slot) }
    {
        self.cells.is_record(slot)
    }

    /// Whether there is a plain object at a slot that has this field or element.
    pub fn has_field(&self, slot: Slot, field: usize) -> bool
        ensures { result ≡ is_some (field_at self.now.graph.objects slot field) }
    {
        self.cells.has_field(slot, field)
    }

    /// What a field or an element holds.
    pub fn load(&self, slot: Slot, field: usize) -> FieldValue
        requires { IsTrue (is_some (field_at self.now.graph.objects slot field)) }
        ensures { field_at self.now.graph.objects slot field ≡ Some result }
    {
        self.cells.field(slot, field)
    }

    /// Sets a field or an element. What it held is shaded: who read it before may still lead to it. Into an element
    /// goes no integer.
    pub fn store(&mut self, slot: Slot, field: usize, value: FieldValue)
        requires field { IsTrue (is_some (field_at self.old.graph.objects slot field)) }
        requires within { (s : ℕ) → value ≡ FieldValue.Ref (Some s) → s < length self.old.graph.objects }
        requires fits { some_and is_record (at self.old.graph.objects slot) ≡ false → IsTrue (is_ref value) }
        requires held { (s : ℕ) → value ≡ FieldValue.Ref (Some s) → IsInHand self.old s }
        requires object { (s : ℕ) → field_at self.old.graph.objects slot field ≡ Some (FieldValue.Ref (Some s))
            → IsObject self.old.graph.objects s }
        ensures graph { self.new.graph ≡ with_objects self.old.graph
            (change_at self.old.graph.objects slot (with_field field value)) }
        ensures clock { self.new.clock ≡ self.old.clock }
        ensures shaded { Shaded (λ s. field_at self.old.graph.objects slot field ≡ Some (FieldValue.Ref (Some s)))
            self.old.marking self.new.marking }
        ensures condemned { self.new.condemned ≡ self.old.condemned }
    {
        let old = self.cells.set_field(slot, field, value);
        shade_value(old, &mut self.marks);
    }

    /// A new object in a free cell. Where no cell is free, all that are condemned are swept first; where none is left
    /// then, there is no new object. It was made now, and is black.
    pub fn allocate(&mut self, shape: &Shape) -> Option<Slot>
        requires { (s : ℕ) → s ∈ (strong_edges (object_of shape.now)
            ++ option_to_list (any_referent (object_of shape.now))) → IsInHand self.old s }
        ensures full { IsNone result ↔ (occupied self.old.graph.objects ≡ length self.old.graph.objects) }
        ensures none { IfNone result (self.new ≡ self.old) }
        ensures free { IfSome result (λ slot. (slot < length self.old.graph.objects)
            × (at self.old.graph.objects slot ≡ None)) }
        ensures made { IfSome result (λ slot. self.new.graph
            ≡ with_objects self.old.graph (set_at self.old.graph.objects slot (object_of shape.now))) }
        ensures clock { IfSome result (λ slot. self.new.clock ≡ made_now self.old.clock slot) }
        ensures black { IfSome result (λ slot. Blackened slot self.old.marking self.new.marking) }
        ensures count { IfSome result (λ _. marked self.new.marking ≡ marked self.old.marking + 1) }
        ensures condemned { IfSome result (λ _. self.new.condemned
            ≡ cond (in_use self.old == length self.old.graph.objects) 0 self.old.condemned) }
    {
        let slot = self.cells.take(shape)?;
        self.marks.blacken(slot);
        self.last_gets[slot.number() as usize] = self.collections;
        self.since_collection = self.since_collection.saturating_add(1);
        Some(slot)
    }

    /// A new array of these elements in a free cell. Where no cell is free, all that are condemned are swept first. It
    /// was made now, and is black.
    ///
    /// # Errors
    /// The elements, where no cell is left then. Nothing has changed.
    pub fn allocate_array(&mut self, elements: Elements) -> Result<Slot, Elements>
        requires { (s : ℕ) → s ∈ slots_in (ElementsOf elements) → IsInHand self.old s }
        ensures full { IsErr result ↔ (occupied self.old.graph.objects ≡ length self.old.graph.objects) }
        ensures back { IfErr result (λ e. (e ≡ elements) × (self.new.graph ≡ self.old.graph)
            × (self.new.clock ≡ self.old.clock) × (self.new.marking ≡ self.old.marking)
            × (self.new.condemned ≡ self.old.condemned)) }
        ensures free { IfOk result (λ slot. (slot < length self.old.graph.objects)
            × (at self.old.graph.objects slot ≡ None)) }
        ensures made { IfOk result (λ slot. self.new.graph
            ≡ with_objects self.old.graph (set_at self.old.graph.objects slot (Plain (ElementsOf elements)))) }
        ensures clock { IfOk result (λ slot. self.new.clock ≡ made_now self.old.clock slot) }
        ensures black { IfOk result (λ slot. Blackened slot self.old.marking self.new.marking) }
        ensures count { IfOk result (λ _. marked self.new.marking ≡ marked self.old.marking + 1) }
        ensures condemned { IfOk result (λ _. self.new.condemned
            ≡ cond (in_use self.old == length self.old.graph.objects) 0 self.old.condemned) }
    {
        match self.cells.take_array(elements) {
            Ok(made) => {
                self.marks.blacken(made);
                self.last_gets[made.number() as usize] = self.collections;
                self.since_collection = self.since_collection.saturating_add(1);
                Ok(made)
            }
            Err(elements) => Err(elements),
        }
    }

    /// The reference at a slot, if there is one.
    pub fn reference(&self, slot: Slot) -> Option<Reference>
        ensures { result ≡ option_and_then as_reference (at self.now.graph.objects slot) }
    {
        self.cells.reference(slot)
    }

    /// What the reference at a slot refers to, if there is a reference and it was not cleared. The collector asks so:
    /// it is no giving of the referent, and does not keep it.
    pub fn referent(&self, slot: Slot) -> Option<Slot>
        ensures { result ≡ referent_in (at self.now.graph.objects slot) }
    {
        self.cells.referent(slot)
    }

    /// The objects as plain data.
    ///
    /// # Errors
    /// `AllocError` where there is no memory for them.
    pub fn objects_image(&self, alloc: Global) -> Result<Table<Object>, AllocError>
        ensures { IfOk result (λ objects. objects ≡ self.now.graph.objects) }
    {
        self.cells.image(alloc)
    }
}

fn cell_count(limits: Limits) -> u32
    ensures count { result ≡ limits.cells }
    ensures few { result ≤ 65536 }
{
    limits.cells
}

fn session_count(limits: Limits) -> u8
    ensures count { result ≡ limits.sessions }
    ensures few { result ≤ 64 }
{
    limits.sessions as u8
}

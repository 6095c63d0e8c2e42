//! One cell.
ghost use Rattle.std.specs.Prelude.{◌≡◌, ◌<◌, ℕ, IfOk, Some, IsTrue, is_some, length, option_and_then, option_map};
ghost use Rattle.std.specs.Prelude.{true, false};
ghost use Rattle.jlr_machine.specs.Objects.{as_cleanable, as_guard, as_reference, some_and, with_cleanable, with_field};
ghost use Rattle.jlr_machine.specs.Objects.{with_reference};
ghost use Rattle.jlr_machine.specs.Refusals.{is_cleanable, is_record, is_reference};
ghost use Rattle.jlr_machine.specs.declared.object.Object.TheVariants.{Plain};
ghost use Rattle.jlr_machine.specs.declared.object.Contents.TheVariants.{Elements as ElementsOf};
ghost use Rattle.jlr_cells.specs.Contents.{field_in, is_array, kind_in, next_in, object_in};
ghost use Rattle.jlr_cells.specs.Contents.{object_of, referent_in, with_list};
ghost use Rattle.jlr_cells.specs.Changes.{altered_cleanable, altered_reference};
ghost use Rattle.jlr_links.specs.Lists.{list_at};
ghost use Rattle.jlr_cells.specs.Links.{links_of, no_links};

use crate::change::{CleanChange, RefChange};
use crate::elements::Elements;
use crate::fields::Fields;
use crate::shape::{Kind, Shape};
use jlr_links::Links as Lists;
use jlr_links::column::Blank;
use jlr_machine::object::{
    CleanState, Cleanable, Contents, Fields as PlainFields, Guard, Object, RefState, Reference,
};
use jlr_types::{FieldValue, Slot};
use std::alloc::{AllocError, Global};
use std::mem::size_of;

/// A place for one object.
#[derive(Drop)]
pub(crate) enum Cell {
    /// Nothing was put here yet.
    Free,
    Plain(Fields),
    /// An array. Its elements are the only thing in a cell that has memory of its own.
    Array(Elements),
    Reference(Reference),
    /// A queue. Its members stand in the list of its slot.
    Queue,
    Cleaner,
    Cleanable(Cleanable),
    Guard(Guard),
}

// What the head of the crate says of the layout.
const _: () = prove!(size_of::<Cell>() == 80);

impl Blank for Cell {
    ghost use Rattle.jlr_cells.specs.declared.cell.Cell.TheVariants.{Free};

    ghost nothing = { Free };

    fn blank() -> Cell {
        Cell::Free
    }
}

impl Cell {
    pub(crate) fn new(shape: &Shape) -> Self
        ensures object { object_in result ≡ Some (object_of shape.now) }
        ensures links { links_of (object_in result) ≡ no_links }
    {
        match *shape {
            Shape::Plain(ref layout) => Cell::Plain(Fields::blank(layout)),
            Shape::Reference {
                kind,
                referent,
                queue,
            } => Cell::Reference(Reference {
                kind,
                referent,
                queue,
                state: RefState::Fresh,
            }),
            Shape::Queue => Cell::Queue,
            Shape::Cleaner => Cell::Cleaner,
            Shape::Cleanable {
                referent,
                action,
                work,
            } => Cell::Cleanable(Cleanable {
                referent,
                action,
                work,
                state: CleanState::Armed,
            }),
            Shape::Guard { rid, cleanable } => Cell::Guard(Guard { rid, cleanable }),
        }
    }

    pub(crate) fn kind(&self) -> Option<Kind>
        ensures { result ≡ kind_in self.now }
    {
        match self {
            Cell::Free => None,
            Cell::Plain(_) => Some(Kind::Plain),
            Cell::Array(_) => Some(Kind::Array),
            Cell::Reference(reference) => Some(Kind::Reference(reference.kind)),
            Cell::Queue => Some(Kind::Queue),
            Cell::Cleaner => Some(Kind::Cleaner),
            Cell::Cleanable(_) => Some(Kind::Cleanable),
            Cell::Guard(_) => Some(Kind::Guard),
        }
    }

    /// A field or an element, if this is a plain object and has it.
    pub(crate) fn field(&self, field: usize) -> Option<FieldValue>
        ensures { result ≡ field_in (object_in self.now) field }
    {
        match self {
            Cell::Plain(fields) => fields.get(field),
            Cell::Array(elements) => elements.value(field),
            _ => None,
        }
    }

    /// Sets a field, and answers what it held.
    pub(crate) fn set_field(&mut self, field: usize, value: FieldValue) -> FieldValue
        requires there { IsTrue (is_some (field_in (object_in self.old) field)) }
        requires record { some_and is_record (object_in self.old) ≡ true }
        ensures old { field_in (object_in self.old) field ≡ Some result }
        ensures new { object_in self.new ≡ option_map (with_field field value) (object_in self.old) }
        ensures kind { kind_in self.new ≡ kind_in self.old }
        ensures few { field < 8 }
    {
        match self {
            Cell::Plain(fields) => fields.set(field, value),
            _ => unreachable!(),
        }
    }

    /// Sets an element, and answers what it referred to.
    pub(crate) fn set_element(&mut self, place: usize, target: Option<Slot>) -> Option<Slot>
        requires there { IsTrue (is_some (field_in (object_in self.old) place)) }
        requires array { some_and is_record (object_in self.old) ≡ false }
        requires few { (s : ℕ) → target ≡ Some s → s < 4294967295 }
        ensures old { field_in (object_in self.old) place ≡ Some (FieldValue.Ref result) }
        ensures new { object_in self.new ≡ option_map (with_field place (FieldValue.Ref target)) (object_in self.old) }
        ensures kind { kind_in self.new ≡ kind_in self.old }
        ensures links { links_of (object_in self.new) ≡ links_of (object_in self.old) }
    {
        match self {
            Cell::Array(elements) => elements.set(place, target),
            _ => unreachable!(),
        }
    }

    /// The elements of an array.
    pub(crate) fn elements(&self) -> &Elements
        requires { some_and is_array (object_in self.now) ≡ true }
        ensures { object_in self.now ≡ Some (Plain (ElementsOf result.now)) }
    {
        match self {
            Cell::Array(elements) => elements,
            _ => unreachable!(),
        }
    }

    /// Something changes in a reference.
    #[inline(always)]
    pub(crate) fn change_reference(&mut self, change: RefChange)
        requires { IsTrue (some_and is_reference (object_in self.old)) }
        ensures new { object_in self.new ≡ option_map (with_reference (altered_reference change)) (object_in self.old) }
        ensures kind { kind_in self.new ≡ kind_in self.old }
    {
        let Cell::Reference(reference) = self else {
            unreachable!()
        };
        match change {
            RefChange::State(state) => reference.state = state,
            RefChange::NoQueue => reference.queue = None,
            RefChange::NoReferent => reference.referent = None,
        }
    }

    /// Something changes in a cleanable.
    #[inline(always)]
    pub(crate) fn change_cleanable(&mut self, change: CleanChange)
        requires { IsTrue (some_and is_cleanable (object_in self.old)) }
        ensures new { object_in self.new ≡ option_map (with_cleanable (altered_cleanable change)) (object_in self.old) }
        ensures kind { kind_in self.new ≡ kind_in self.old }
    {
        let Cell::Cleanable(cleanable) = self else {
            unreachable!()
        };
        match change {
            CleanChange::State(state) => cleanable.state = state,
            CleanChange::NoReferent => cleanable.referent = None,
            CleanChange::Referent(slot) => cleanable.referent = Some(slot),
            CleanChange::Spent => {
                cleanable.state = CleanState::Spent;
                cleanable.referent = None;
            }
        }
    }

    pub(crate) fn cleanable(&self) -> Option<Cleanable>
        ensures { result ≡ option_and_then as_cleanable (object_in self.now) }
    {
        match self {
            Cell::Cleanable(cleanable) => Some(*cleanable),
            _ => None,
        }
    }

    pub(crate) fn guard(&self) -> Option<Guard>
        ensures { result ≡ option_and_then as_guard (object_in self.now) }
    {
        match self {
            Cell::Guard(guard) => Some(*guard),
            _ => None,
        }
    }

    pub(crate) fn reference(&self) -> Option<Reference>
        ensures { result ≡ option_and_then as_reference (object_in self.now) }
    {
        match self {
            Cell::Reference(reference) => Some(*reference),
            _ => None,
        }
    }

    pub(crate) fn referent(&self) -> Option<Slot>
        ensures { result ≡ referent_in (object_in self.now) }
    {
        match self {
            Cell::Reference(reference) => reference.referent,
            _ => None,
        }
    }

    /// The queue that a reference may still be added to, or the cleanable of a guard.
    pub(crate) fn next(&self) -> Option<Slot>
        ensures { result ≡ next_in (object_in self.now) }
    {
        match self {
            Cell::Reference(reference) => match reference.state {
                RefState::Fresh | RefState::Pending => reference.queue,
                RefState::Queued | RefState::Removed => None,
            },
            Cell::Guard(guard) => Some(guard.cleanable),
            _ => None,
        }
    }

    /// The object as plain data, if the cell is not free. The members of a queue are those of this list.
    pub(crate) fn image(
        &self,
        alloc: Global,
        lists: &Lists,
        list: u32,
    ) -> Result<Option<Object>, AllocError>
        requires { list < length lists.now.lists }
        ensures { IfOk result (λ object. object ≡ with_list (list_at lists.now.lists list) (object_in self.now)) }
    {
        match self {
            Cell::Free => Ok(None),
            Cell::Plain(fields) => {
                let mut values = Vec::with_capacity(alloc, fields.len())?;
                for field in 0..fields.len() {
                    match fields.get(field) {
                        Some(value) => values.push_reserved(value),
                        None => unreachable!(),
                    }
                }
                let fields = PlainFields::from_vec(values).unwrap();
                Ok(Some(Object::Plain(Contents::Typed(fields))))
            }
            Cell::Array(elements) => {
                let elements = elements.image(alloc)?;
                Ok(Some(Object::Plain(Contents::Elements(elements))))
            }
            Cell::Reference(reference) => Ok(Some(Object::Reference(*reference))),
            Cell::Queue => Ok(Some(Object::Queue(lists.image(alloc, list)?))),
            Cell::Cleaner => Ok(Some(Object::Cleaner)),
            Cell::Cleanable(cleanable) => Ok(Some(Object::Cleanable(*cleanable))),
            Cell::Guard(guard) => Ok(Some(Object::Guard(*guard))),
        }
    }
}

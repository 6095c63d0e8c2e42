//! Changes of one object.
ghost use Rattle.std.specs.Prelude.{◌≡◌, [], None, drop, option_map, slice_set, OnOk, OnErr};
ghost use Rattle.jlr_machine.specs.declared.object.Object.TheVariants.{Plain, Queue, Reference as ReferenceObject};
ghost use Rattle.jlr_machine.specs.declared.object.Object.TheVariants.{Cleanable as CleanableObject};
ghost use Rattle.jlr_machine.specs.Objects.{at, change_at, with_element, with_value};
ghost use Rattle.jlr_machine.specs.Lookups.{with_object};
ghost use Rattle.jlr_plain_asks.specs.Changes.{appended, change_of};

use jlr_machine::items::Items;
use jlr_machine::machine::Machine;
use jlr_machine::object::{
    CleanState, Cleanable, Contents, Elements, Fields, Object, RefState, Reference,
};
use jlr_machine::table::Table;
use jlr_types::{FieldNo, FieldValue, Slot};
use std::alloc::{AllocError, Global};
use std::mem::replace;

/// A change of an object of the kind that it is for.
#[derive(Clone, Copy)]
pub enum Change {
    /// A field or an element holds this.
    Set(FieldNo, FieldValue),
    /// A reference loses its referent.
    Unrefer,
    /// A reference is enqueued.
    Enqueue,
    /// A reference is removed from its queue.
    Remove,
    /// A queue loses its first member.
    DropFirst,
    /// A cleanable is taken up.
    Spend,
    /// A cleanable is lined up.
    Line,
}

fn set_item<T: Copy>(items: &mut Vec<T>, number: FieldNo, item: T)
    ensures { items.new.items ≡ slice_set items.old.items number item }
{
    let place = number.number() as usize;
    if place < items.len() {
        items[place] = item;
    }
}

fn set_field(fields: Fields, number: FieldNo, value: FieldValue) -> Fields
    ensures { result ≡ slice_set fields number value }
{
    let mut values = fields.into_vec();
    set_item(&mut values, number, value);
    Fields::from_vec(values).unwrap()
}

/// An element refers to another object. An integer goes into none.
fn set_element(elements: Elements, number: FieldNo, value: FieldValue) -> Elements
    ensures { result ≡ with_element elements number value }
{
    let FieldValue::Ref(slot) = value else {
        return elements;
    };
    let mut slots = elements.into_vec();
    set_item(&mut slots, number, slot);
    Elements::from_vec(slots).unwrap()
}

fn set_value(contents: Contents, number: FieldNo, value: FieldValue) -> Contents
    ensures { result ≡ with_value number value contents }
{
    match contents {
        Contents::Typed(fields) => Contents::Typed(set_field(fields, number, value)),
        Contents::Elements(elements) => Contents::Elements(set_element(elements, number, value)),
    }
}

fn changed_plain(contents: Contents, change: Change) -> Object
    ensures { result ≡ change_of change (Plain contents) }
{
    match change {
        Change::Set(number, value) => Object::Plain(set_value(contents, number, value)),
        _ => Object::Plain(contents),
    }
}

fn changed_reference(r: Reference, change: Change) -> Reference
    ensures { ReferenceObject result ≡ change_of change (ReferenceObject r) }
{
    match change {
        Change::Unrefer => Reference {
            kind: r.kind,
            referent: None,
            queue: r.queue,
            state: r.state,
        },
        Change::Enqueue => Reference {
            kind: r.kind,
            referent: r.referent,
            queue: None,
            state: RefState::Queued,
        },
        Change::Remove => Reference {
            kind: r.kind,
            referent: r.referent,
            queue: r.queue,
            state: RefState::Removed,
        },
        _ => r,
    }
}

/// A list of slots without its first.
pub(crate) fn drop_first(alloc: Global, slots: &mut Items<Slot>)
    ensures { slots.new ≡ drop 1 slots.old }
{
    let mut left = replace(slots, Items::new(alloc)).into_vec();
    if !left.is_empty() {
        drop(left.remove(0));
    }
    *slots = Items::from_vec(left);
}

fn changed_queue(alloc: Global, members: Items<Slot>, change: Change) -> Object
    ensures { result ≡ change_of change (Queue members) }
{
    let mut members = members;
    match change {
        Change::DropFirst => {
            drop_first(alloc, &mut members);
            Object::Queue(members)
        }
        _ => Object::Queue(members),
    }
}

fn changed_cleanable(c: Cleanable, change: Change) -> Cleanable
    ensures { CleanableObject result ≡ change_of change (CleanableObject c) }
{
    match change {
        Change::Spend => Cleanable {
            referent: None,
            action: c.action,
            work: c.work,
            state: CleanState::Spent,
        },
        Change::Line => Cleanable {
            referent: c.referent,
            action: c.action,
            work: c.work,
            state: CleanState::Lined,
        },
        _ => c,
    }
}

/// The object after the change. What it holds stays where it lies.
fn changed(alloc: Global, object: Object, change: Change) -> Object
    ensures { result ≡ change_of change object }
{
    match object {
        Object::Plain(contents) => changed_plain(contents, change),
        Object::Reference(r) => Object::Reference(changed_reference(r, change)),
        Object::Queue(members) => changed_queue(alloc, members, change),
        Object::Cleaner => Object::Cleaner,
        Object::Cleanable(c) => Object::Cleanable(changed_cleanable(c, change)),
        Object::Guard(g) => Object::Guard(g),
    }
}

/// Puts a last member to a queue, which may take memory. Of another object nothing changes.
fn append_to(place: &mut Option<Object>, slot: Slot) -> Result<(), AllocError>
    ensures ok { OnOk result (place.new ≡ option_map (appended slot) place.old) }
    ensures err { OnErr result (place.new ≡ place.old) }
{
    match place {
        Some(Object::Queue(members)) => members.push(slot),
        _ => Ok(()),
    }
}

// ---- The objects of a machine

fn put_object(places: &mut Vec<Option<Object>>, number: usize, place: Option<Object>)
    ensures { places.new.items ≡ slice_set places.old.items number place }
{
    if number < places.len() {
        places[number] = place;
    }
}

/// Takes out what lies at a place.
fn take_object(places: &mut Vec<Option<Object>>, number: usize) -> Option<Object>
    ensures taken { result ≡ at places.old.items number }
    ensures left { places.new.items ≡ slice_set places.old.items number None }
{
    match places.get_mut(number) {
        Some(place) => place.take(),
        None => None,
    }
}

/// Changes the object at a place, if there is one.
fn change_object(alloc: Global, places: &mut Vec<Option<Object>>, number: usize, change: Change)
    ensures { places.new.items ≡ change_at places.old.items number (change_of change) }
{
    let place = match take_object(places, number) {
        Some(object) => Some(changed(alloc, object, change)),
        None => None,
    };
    put_object(places, number, place);
}

/// Puts a last member to the queue at a place, if there is one.
fn append_at(places: &mut Vec<Option<Object>>, number: usize, slot: Slot) -> Result<(), AllocError>
    ensures ok { OnOk result (places.new.items ≡ change_at places.old.items number (appended slot)) }
    ensures err { OnErr result (places.new.items ≡ places.old.items) }
{
    let mut place = take_object(places, number);
    let done = append_to(&mut place, slot);
    put_object(places, number, place);
    done
}

/// Takes the places of all objects out of the machine, so that they are changed where they lie.
fn take_places(alloc: Global, machine: &mut Machine) -> Vec<Option<Object>>
    ensures places { result.items ≡ machine.old.objects }
    ensures left { machine.new ≡ record machine.old { objects = [] } }
{
    replace(&mut machine.objects, Table::from_vec(Vec::new(alloc))).into_vec()
}

/// Puts this at the slot.
pub(crate) fn put_place(alloc: Global, machine: &mut Machine, slot: Slot, place: Option<Object>)
    ensures { machine.new ≡ record machine.old { objects = slice_set machine.old.objects slot place } }
{
    let mut places = take_places(alloc, machine);
    put_object(&mut places, slot.number() as usize, place);
    machine.objects = Table::from_vec(places);
}

/// Changes the object at the slot. Takes no memory.
pub(crate) fn change_in(alloc: Global, machine: &mut Machine, slot: Slot, change: Change)
    ensures { machine.new ≡ with_object machine.old slot (change_of change) }
{
    let mut places = take_places(alloc, machine);
    change_object(alloc, &mut places, slot.number() as usize, change);
    machine.objects = Table::from_vec(places);
}

/// Puts a last member to the queue at a slot.
///
/// # Errors
/// `AllocError` where there is no memory. The machine is then as it was.
pub fn append(
    alloc: Global,
    machine: &mut Machine,
    queue: Slot,
    slot: Slot,
) -> Result<(), AllocError>
    ensures ok { OnOk result (machine.new ≡ with_object machine.old queue (appended slot)) }
    ensures err { OnErr result (machine.new ≡ machine.old) }
{
    let mut places = take_places(alloc, machine);
    let done = append_at(&mut places, queue.number() as usize, slot);
    machine.objects = Table::from_vec(places);
    done
}

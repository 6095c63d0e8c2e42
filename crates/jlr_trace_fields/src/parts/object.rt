//! Objects.
ghost use Rattle.std.specs.Prelude.{◌≡◌, ◌≤◌, ◌∷◌, ◌++◌, OnOk, length};
ghost use Rattle.std.specs.List.{flat_map};
ghost use Rattle.jlr_trace_fields.specs.Reading.{Reads};
ghost use Rattle.jlr_trace_fields.specs.Spelling.{spelled_16, spelled_option};
ghost use Rattle.jlr_trace_fields.specs.Objects.{value_read, spelled_value, work_read, spelled_work, plain_read};
ghost use Rattle.jlr_trace_fields.specs.Objects.{array_read};
ghost use Rattle.jlr_trace_fields.specs.Objects.{array_in as array_of, reference_read, queue_read, cleanable_read};
ghost use Rattle.jlr_trace_fields.specs.Objects.{guard_read};
ghost use Rattle.jlr_trace_fields.specs.Objects.{object_read, spelled_contents, spelled_object, spelled_reference};
ghost use Rattle.jlr_trace_fields.specs.Objects.{spelled_cleanable, ObjectCounts};

use crate::cursor::{
    take_action, take_flag, take_i64, take_option, take_rid, take_slot, take_u8, take_u16_within,
    take_u32, take_within,
};
use crate::fault::{Fault, ReadError};
use crate::number::{put_i64, put_option, put_slot, put_u8, put_u16, put_u32, put_u64};
use crate::parts::items::{Item, Written, put_each, put_list, take_items, take_list};
use crate::parts::tables::{
    put_clean_state, put_ref_kind, put_ref_state, take_clean_state, take_ref_kind, take_ref_state,
};
use crate::version::Version;
use jlr_machine::object::{Cleanable, Contents, Elements, Fields, Guard, Object, Reference};
use jlr_types::{FieldValue, Slot, Work};
use std::alloc::{AllocError, Global};

/// What a cleaning action does.
#[tactic(auto, unfolding(crate::specs::Objects::work_read))]
pub fn take_work(bytes: &mut &[u8]) -> Result<Work, ReadError>
    ensures { Reads (λ x. x) result bytes.new.now (work_read bytes.old.now) }
{
    let is_resource = take_flag(bytes)?;
    if is_resource {
        let rid = take_rid(bytes)?;
        return Ok(Work::Resource(rid));
    }
    let note = take_u32(bytes)?;
    Ok(Work::Note(note))
}

/// Writes what a cleaning action does.
pub fn put_work(out: &mut Vec<u8>, work: Work) -> Result<(), AllocError>
    ensures { OnOk result (out.new.items ≡ out.old.items ++ spelled_work work) }
{
    match work {
        Work::Note(note) => {
            put_u8(out, 0)?;
            put_u32(out, note)
        }
        Work::Resource(rid) => {
            put_u8(out, 1)?;
            put_u32(out, rid.number())
        }
    }
}

#[tactic(auto, unfolding(crate::specs::Objects::value_read))]
fn field_at(bytes: &mut &[u8]) -> Result<FieldValue, ReadError>
    ensures { Reads (λ x. x) result bytes.new.now (value_read bytes.old.now) }
{
    let is_slot = take_flag(bytes)?;
    if is_slot {
        let slot = take_option(bytes)?;
        return Ok(FieldValue::Ref(slot));
    }
    let number = take_i64(bytes)?;
    Ok(FieldValue::Int(number))
}

impl Item for FieldValue {
    ghost use Rattle.jlr_trace_fields.specs.Objects.{value_read};

    ghost read_at = { value_read };

    ghost LEAST = { 5 };

    const LEAST: usize = 5;

    fn read(_alloc: Global, bytes: &mut &[u8]) -> Result<Self, ReadError> {
        field_at(bytes)
    }
}

impl Written for FieldValue {
    ghost use Rattle.jlr_trace_fields.specs.Objects.{spelled_value};

    ghost spelled = { spelled_value };

    ghost Counts = { λ _. Unit {0} };

    fn write(&self, out: &mut Vec<u8>) -> Result<(), AllocError> {
        match self {
            FieldValue::Int(number) => {
                put_u8(out, 0)?;
                put_i64(out, *number)
            }
            FieldValue::Ref(slot) => {
                put_u8(out, 1)?;
                put_option(out, *slot)
            }
        }
    }
}

#[tactic(auto, unfolding(crate::specs::Objects::plain_read))]
fn plain_at(alloc: Global, bytes: &mut &[u8]) -> Result<Object, ReadError>
    ensures { Reads (λ x. x) result bytes.new.now (plain_read bytes.old.now) }
{
    let count = take_within(0, 8, bytes)?;
    let fields = take_items(alloc, count as u32, bytes)?;
    Ok(Object::Plain(Contents::Typed(Fields::from_vec(fields).unwrap())))
}

#[tactic(auto, unfolding(crate::specs::Objects::array_read))]
fn array_at(alloc: Global, bytes: &mut &[u8]) -> Result<Object, ReadError>
    ensures { Reads (λ x. x) result bytes.new.now (array_read bytes.old.now) }
{
    let count = take_u16_within(1, 4_096, bytes)?;
    let elements = take_items(alloc, count as u32, bytes)?;
    Ok(Object::Plain(Contents::Elements(Elements::from_vec(elements).unwrap())))
}

/// An array, where the version has them.
fn array_in(alloc: Global, version: Version, bytes: &mut &[u8]) -> Result<Object, ReadError>
    ensures { Reads (λ x. x) result bytes.new.now (array_of version bytes.old.now) }
{
    match version {
        Version::One => Err(ReadError::Fault(Fault::Range)),
        Version::Two => array_at(alloc, bytes),
    }
}

#[tactic(auto, unfolding(crate::specs::Objects::reference_read))]
fn reference_at(bytes: &mut &[u8]) -> Result<Object, ReadError>
    ensures { Reads (λ x. x) result bytes.new.now (reference_read bytes.old.now) }
{
    let kind = take_ref_kind(bytes)?;
    let referent = take_option(bytes)?;
    let queue = take_option(bytes)?;
    let state = take_ref_state(bytes)?;
    let reference = Reference {
        kind,
        referent,
        queue,
        state,
    };
    Ok(Object::Reference(reference))
}

#[tactic(auto, unfolding(crate::specs::Objects::queue_read))]
fn queue_at(alloc: Global, bytes: &mut &[u8]) -> Result<Object, ReadError>
    ensures { Reads (λ x. x) result bytes.new.now (queue_read bytes.old.now) }
{
    let members = take_list(alloc, bytes)?;
    Ok(Object::Queue(members))
}

#[tactic(auto, unfolding(crate::specs::Objects::cleanable_read))]
fn cleanable_at(bytes: &mut &[u8]) -> Result<Object, ReadError>
    ensures { Reads (λ x. x) result bytes.new.now (cleanable_read bytes.old.now) }
{
    let referent = take_option(bytes)?;
    let action = take_action(bytes)?;
    let work = take_work(bytes)?;
    let state = take_clean_state(bytes)?;
    let cleanable = Cleanable {
        referent,
        action,
        work,
        state,
    };
    Ok(Object::Cleanable(cleanable))
}

#[tactic(auto, unfolding(crate::specs::Objects::guard_read))]
fn guard_at(bytes: &mut &[u8]) -> Result<Object, ReadError>
    ensures { Reads (λ x. x) result bytes.new.now (guard_read bytes.old.now) }
{
    let rid = take_rid(bytes)?;
    let cleanable = take_slot(bytes)?;
    Ok(Object::Guard(Guard { rid, cleanable }))
}

/// An object: its kind, and what that kind has.
#[tactic(auto, unfolding(crate::specs::Objects::object_read))]
pub(crate) fn object_at(
    alloc: Global,
    version: Version,
    bytes: &mut &[u8],
) -> Result<Object, ReadError>
    ensures { Reads (λ x. x) result bytes.new.now (object_read version bytes.old.now) }
{
    let kind = take_u8(bytes)?;
    match kind {
        1 => plain_at(alloc, bytes),
        2 => reference_at(bytes),
        3 => queue_at(alloc, bytes),
        4 => Ok(Object::Cleaner),
        5 => cleanable_at(bytes),
        6 => guard_at(bytes),
        7 => array_in(alloc, version, bytes),
        _ => Err(ReadError::Fault(Fault::Range)),
    }
}

fn put_plain(out: &mut Vec<u8>, fields: &[FieldValue]) -> Result<(), AllocError>
    requires { length fields.now ≤ 8 }
    ensures { OnOk result (out.new.items ≡ out.old.items ++ 1 ∷ length fields.now ∷ flat_map spelled_value fields.now) }
{
    put_u8(out, 1)?;
    put_u8(out, fields.len() as u8)?;
    put_each(out, fields)
}

fn put_array(out: &mut Vec<u8>, elements: &[Option<Slot>]) -> Result<(), AllocError>
    requires { length elements.now ≤ 4096 }
    ensures { OnOk result (out.new.items ≡ out.old.items ++ 7 ∷ spelled_16 (length elements.now)
        ++ flat_map spelled_option elements.now) }
{
    put_u8(out, 7)?;
    put_u16(out, elements.len() as u16)?;
    put_each(out, elements)
}

fn put_contents(out: &mut Vec<u8>, contents: &Contents) -> Result<(), AllocError>
    ensures { OnOk result (out.new.items ≡ out.old.items ++ spelled_contents contents.now) }
{
    match contents {
        Contents::Typed(fields) => put_plain(out, fields.as_slice()),
        Contents::Elements(elements) => put_array(out, elements.as_slice()),
    }
}

fn put_reference(out: &mut Vec<u8>, reference: &Reference) -> Result<(), AllocError>
    ensures { OnOk result (out.new.items ≡ out.old.items ++ spelled_reference reference.now) }
{
    put_u8(out, 2)?;
    put_ref_kind(out, reference.kind)?;
    put_option(out, reference.referent)?;
    put_option(out, reference.queue)?;
    put_ref_state(out, reference.state)
}

fn put_cleanable(out: &mut Vec<u8>, cleanable: &Cleanable) -> Result<(), AllocError>
    ensures { OnOk result (out.new.items ≡ out.old.items ++ spelled_cleanable cleanable.now) }
{
    put_u8(out, 5)?;
    put_option(out, cleanable.referent)?;
    put_u64(out, cleanable.action.number())?;
    put_work(out, cleanable.work)?;
    put_clean_state(out, cleanable.state)
}

/// Writes an object.
pub(crate) fn put_object(out: &mut Vec<u8>, object: &Object) -> Result<(), AllocError>
    requires { ObjectCounts object.now }
    ensures { OnOk result (out.new.items ≡ out.old.items ++ spelled_object object.now) }
{
    match object {
        Object::Plain(contents) => put_contents(out, contents),
        Object::Reference(reference) => put_reference(out, reference),
        Object::Queue(members) => {
            put_u8(out, 3)?;
            put_list(out, members.as_slice())
        }
        Object::Cleaner => put_u8(out, 4),
        Object::Cleanable(cleanable) => put_cleanable(out, cleanable),
        Object::Guard(guard) => {
            put_u8(out, 6)?;
            put_u32(out, guard.rid.number())?;
            put_slot(out, guard.cleanable)
        }
    }
}

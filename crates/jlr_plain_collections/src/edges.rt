//! The edges of one object, as a list.
ghost use Rattle.std.specs.Prelude.{◌≡◌, ◌++◌, OnOk, option_to_list, filter_map};
ghost use Rattle.jlr_types.specs.declared.RefKind.TheVariants.{Soft};
ghost use Rattle.jlr_machine.specs.Edges.{slot_in, slots_in, strong_edges, referent, edges, edges_from};
ghost use Rattle.jlr_plain_collections.specs.Marks.{chain_of};

use jlr_machine::object::{Contents, Object};
use jlr_machine::table::Table;
use jlr_plain_asks::lookups::{queue_of, referred};
use jlr_types::{FieldValue, RefKind, Slot};
use std::alloc::AllocError;

pub(crate) fn push_option(out: &mut Vec<Slot>, slot: Option<Slot>) -> Result<(), AllocError>
    ensures { OnOk result (out.new.items ≡ out.old.items ++ option_to_list slot) }
{
    if let Some(slot) = slot {
        out.push(slot)?;
    }
    Ok(())
}

/// Those of the slots that are not null.
pub(crate) fn push_options(out: &mut Vec<Slot>, slots: &[Option<Slot>]) -> Result<(), AllocError>
    ensures { OnOk result (out.new.items ≡ out.old.items ++ filter_map (λ s. s) slots.now) }
{
    for &slot in slots {
        push_option(out, slot)?;
    }
    Ok(())
}

fn push_fields(out: &mut Vec<Slot>, fields: &[FieldValue]) -> Result<(), AllocError>
    ensures { OnOk result (out.new.items ≡ out.old.items ++ filter_map slot_in fields.now) }
{
    for field in fields {
        push_option(out, referred(field))?;
    }
    Ok(())
}

/// What the fields or elements refer to.
fn push_contents(out: &mut Vec<Slot>, contents: &Contents) -> Result<(), AllocError>
    ensures { OnOk result (out.new.items ≡ out.old.items ++ slots_in contents.now) }
{
    match contents {
        Contents::Typed(fields) => push_fields(out, fields.as_slice()),
        Contents::Elements(elements) => push_options(out, elements.as_slice()),
    }
}

pub(crate) fn push_all(out: &mut Vec<Slot>, slots: &[Slot]) -> Result<(), AllocError>
    ensures { OnOk result (out.new.items ≡ out.old.items ++ slots.now) }
{
    for slot in slots {
        out.push(*slot)?;
    }
    Ok(())
}

fn push_strong(out: &mut Vec<Slot>, object: &Object) -> Result<(), AllocError>
    ensures { OnOk result (out.new.items ≡ out.old.items ++ strong_edges object.now) }
{
    match object {
        Object::Plain(contents) => push_contents(out, contents),
        Object::Reference(r) => push_option(out, queue_of(r)),
        Object::Queue(members) => push_all(out, members.as_slice()),
        Object::Cleaner => Ok(()),
        Object::Cleanable(_) => Ok(()),
        Object::Guard(g) => push_option(out, Some(g.cleanable)),
    }
}

fn soft_referent(object: &Object) -> Option<Slot>
    ensures { result ≡ referent Soft object.now }
{
    match object {
        Object::Reference(r) => {
            if matches!(r.kind, RefKind::Soft) {
                r.referent
            } else {
                None
            }
        }
        _ => None,
    }
}

fn push_edges(out: &mut Vec<Slot>, object: &Object, softly: bool) -> Result<(), AllocError>
    ensures { OnOk result (out.new.items ≡ out.old.items ++ edges (chain_of softly) object.now) }
{
    push_strong(out, object)?;
    if softly {
        push_option(out, soft_referent(object))?;
    }
    Ok(())
}

/// What edges lead to from the object at a slot, in place of what was in the list.
pub(crate) fn list_edges(
    out: &mut Vec<Slot>,
    objects: &Table<Object>,
    slot: Slot,
    softly: bool,
) -> Result<(), AllocError>
    ensures { OnOk result (out.new.items ≡ edges_from (chain_of softly) objects.now slot) }
{
    out.clear();
    if let Some(object) = objects.get(slot.number() as usize) {
        push_edges(out, object, softly)?;
    }
    Ok(())
}

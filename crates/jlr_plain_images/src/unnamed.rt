//! What nobody may name: the cleanables of resources, and the guards of resources that are not open yet.
ghost use Rattle.std.specs.Prelude.{◌≡◌, ◌↔◌, IsTrue};
ghost use Rattle.std.specs.List.{list_all};
ghost use Rattle.jlr_machine.specs.Edges.{slot_in};
ghost use Rattle.jlr_machine.specs.WellFormed.{ArePrivate};
ghost use Rattle.jlr_plain_images.specs.Places.{none_or, on_plain, on_reference};
ghost use Rattle.jlr_plain_images.specs.Unnamed.{is_private_object, is_public, handles_public, fields_public};
ghost use Rattle.jlr_plain_images.specs.Unnamed.{referent_public, private_fit};

use crate::works::{in_call_at, on_resource};
use jlr_machine::machine::{Binding, Machine, ResourceState, Session};
use jlr_machine::object::{Contents, Object, Reference};
use jlr_plain_asks::lookups::{object_at, referred};
use jlr_types::{FieldValue, Slot};

/// Whether it is a cleanable of a resource, or a guard of a resource that is not open yet.
fn is_hidden(machine: &Machine, object: &Object) -> bool
    ensures { result ≡ is_private_object machine.now object.now }
{
    match object {
        Object::Cleanable(cleanable) => on_resource(cleanable.work),
        Object::Guard(guard) => {
            in_call_at(machine, guard.rid, ResourceState::Opening, guard.cleanable)
        }
        _ => false,
    }
}

fn may_be_named(machine: &Machine, slot: Slot) -> bool
    ensures { result ≡ is_public machine.now slot }
{
    match object_at(machine, slot) {
        Some(object) => !is_hidden(machine, object),
        None => true,
    }
}

fn if_any_may_be_named(machine: &Machine, slot: Option<Slot>) -> bool
    ensures { result ≡ none_or (is_public machine.now) slot }
{
    match slot {
        Some(slot) => may_be_named(machine, slot),
        None => true,
    }
}

fn all_or_null_public(machine: &Machine, slots: &[Option<Slot>]) -> bool
    ensures { result ≡ list_all (none_or (is_public machine.now)) slots.now }
{
    slots.iter().all(|&slot| if_any_may_be_named(machine, slot))
}

fn session_names_public(machine: &Machine, session: &Session) -> bool
    ensures { result ≡ handles_public machine.now session.now }
{
    all_or_null_public(machine, session.handles.as_slice())
}

fn sessions_name_public(machine: &Machine) -> bool
    ensures { result ≡ list_all (none_or (handles_public machine.now)) machine.now.mutators }
{
    let mut places = machine.mutators.as_slice().iter();
    places.all(|place| match place {
        Some(session) => session_names_public(machine, session),
        None => true,
    })
}

fn names_are_public(machine: &Machine, names: &[Binding]) -> bool
    ensures { result ≡ list_all (λ b. is_public machine.now b.slot) names.now }
{
    names
        .iter()
        .all(|binding| may_be_named(machine, binding.slot))
}

fn typed_are_public(machine: &Machine, fields: &[FieldValue]) -> bool
    ensures { result ≡ list_all (λ f. none_or (is_public machine.now) (slot_in f)) fields.now }
{
    fields
        .iter()
        .all(|field| if_any_may_be_named(machine, referred(field)))
}

fn fields_are_public(machine: &Machine, contents: &Contents) -> bool
    ensures { result ≡ fields_public machine.now contents.now }
{
    match contents {
        Contents::Typed(fields) => typed_are_public(machine, fields.as_slice()),
        Contents::Elements(elements) => all_or_null_public(machine, elements.as_slice()),
    }
}

fn all_fields_public(machine: &Machine) -> bool
    ensures { result ≡ list_all (none_or (on_plain (fields_public machine.now))) machine.now.objects }
{
    let mut places = machine.objects.as_slice().iter();
    places.all(|place| match place {
        Some(Object::Plain(contents)) => fields_are_public(machine, contents),
        _ => true,
    })
}

fn refers_to_public(machine: &Machine, reference: &Reference) -> bool
    ensures { result ≡ referent_public machine.now reference.now }
{
    if_any_may_be_named(machine, reference.referent)
}

fn all_referents_public(machine: &Machine) -> bool
    ensures { result ≡ list_all (none_or (on_reference (referent_public machine.now))) machine.now.objects }
{
    let mut places = machine.objects.as_slice().iter();
    places.all(|place| match place {
        Some(Object::Reference(reference)) => refers_to_public(machine, reference),
        _ => true,
    })
}

fn private_tested(machine: &Machine) -> bool
    ensures { result ≡ private_fit machine.now }
{
    sessions_name_public(machine)
        && names_are_public(machine, machine.names.as_slice())
        && all_fields_public(machine)
        && all_referents_public(machine)
}

/// Whether no handle, name, field, element or reference names what is private.
#[tactic(auto, using(crate::proofs::UnnamedDecided::private_decided))]
pub fn are_private(machine: &Machine) -> bool
    ensures { IsTrue result ↔ ArePrivate machine.now }
{
    private_tested(machine)
}

//! The slots that a machine names.
ghost use Rattle.std.specs.Prelude.{◌≡◌, ◌↔◌, IsTrue};
ghost use Rattle.std.specs.List.{list_all};
ghost use Rattle.jlr_machine.specs.Objects.{at, some_and};
ghost use Rattle.jlr_machine.specs.declared.object.Object.TheVariants.{Reference as ReferenceObject};
ghost use Rattle.jlr_machine.specs.Edges.{slot_in};
ghost use Rattle.jlr_machine.specs.Refusals.{is_queue};
ghost use Rattle.jlr_machine.specs.WellFormed.{AreSlotsNamed};
ghost use Rattle.jlr_plain_images.specs.Places.{none_or, on_reference, on_guard};
ghost use Rattle.jlr_plain_images.specs.Slots.{has_object_at, fields_there, edges_there, session_there, roots_there};
ghost use Rattle.jlr_plain_images.specs.Slots.{queue_there, cleanable_there, slots_fit};

use jlr_machine::machine::{Binding, Machine, Session};
use jlr_machine::object::{Contents, Guard, Object, Reference};
use jlr_plain_asks::lookups::{object_at, queue_of, referred};
use jlr_types::{FieldValue, Slot};

fn object_there(machine: &Machine, slot: Slot) -> bool
    ensures { result ≡ has_object_at machine.now.objects slot }
{
    object_at(machine, slot).is_some()
}

/// Whether what this names is there, if it names something.
fn any_there(machine: &Machine, slot: Option<Slot>) -> bool
    ensures { result ≡ none_or (has_object_at machine.now.objects) slot }
{
    match slot {
        Some(slot) => object_there(machine, slot),
        None => true,
    }
}

fn all_there(machine: &Machine, slots: &[Slot]) -> bool
    ensures { result ≡ list_all (has_object_at machine.now.objects) slots.now }
{
    slots.iter().all(|&slot| object_there(machine, slot))
}

/// Whether all that the fields refer to is there.
fn typed_there(machine: &Machine, fields: &[FieldValue]) -> bool
    ensures { result ≡ list_all (λ f. none_or (has_object_at machine.now.objects) (slot_in f)) fields.now }
{
    fields
        .iter()
        .all(|field| any_there(machine, referred(field)))
}

/// Whether each of the slots is there that is not null.
fn all_or_null_there(machine: &Machine, slots: &[Option<Slot>]) -> bool
    ensures { result ≡ list_all (none_or (has_object_at machine.now.objects)) slots.now }
{
    slots.iter().all(|&slot| any_there(machine, slot))
}

/// Whether all that the fields or elements refer to is there.
fn all_fields_there(machine: &Machine, contents: &Contents) -> bool
    ensures { result ≡ fields_there machine.now.objects contents.now }
{
    match contents {
        Contents::Typed(fields) => typed_there(machine, fields.as_slice()),
        Contents::Elements(elements) => all_or_null_there(machine, elements.as_slice()),
    }
}

fn reference_leads(machine: &Machine, reference: &Reference) -> bool
    ensures { result ≡ edges_there machine.now.objects (ReferenceObject reference.now) }
{
    any_there(machine, queue_of(reference)) && any_there(machine, reference.referent)
}

/// Whether it leads to objects only.
fn leads_to_objects(machine: &Machine, object: &Object) -> bool
    ensures { result ≡ edges_there machine.now.objects object.now }
{
    match object {
        Object::Plain(contents) => all_fields_there(machine, contents),
        Object::Reference(reference) => reference_leads(machine, reference),
        Object::Queue(members) => all_there(machine, members.as_slice()),
        Object::Cleaner => true,
        Object::Cleanable(cleanable) => any_there(machine, cleanable.referent),
        Object::Guard(guard) => object_there(machine, guard.cleanable),
    }
}

fn edges_lead_to_objects(machine: &Machine) -> bool
    ensures { result ≡ list_all (none_or (edges_there machine.now.objects)) machine.now.objects }
{
    let mut places = machine.objects.as_slice().iter();
    places.all(|place| match place {
        Some(object) => leads_to_objects(machine, object),
        None => true,
    })
}

fn session_names_objects(machine: &Machine, session: &Session) -> bool
    ensures { result ≡ session_there machine.now.objects session.now }
{
    all_or_null_there(machine, session.handles.as_slice()) && any_there(machine, session.fence)
}

fn sessions_name_objects(machine: &Machine) -> bool
    ensures { result ≡ list_all (none_or (session_there machine.now.objects)) machine.now.mutators }
{
    let mut places = machine.mutators.as_slice().iter();
    places.all(|place| match place {
        Some(session) => session_names_objects(machine, session),
        None => true,
    })
}

fn names_there(machine: &Machine, names: &[Binding]) -> bool
    ensures { result ≡ list_all (λ b. has_object_at machine.now.objects b.slot) names.now }
{
    names
        .iter()
        .all(|binding| object_there(machine, binding.slot))
}

fn roots_are_objects(machine: &Machine) -> bool
    ensures { result ≡ roots_there machine.now }
{
    sessions_name_objects(machine)
        && names_there(machine, machine.names.as_slice())
        && all_there(machine, machine.pending.as_slice())
        && all_there(machine, machine.line.as_slice())
}

fn queue_at(machine: &Machine, slot: Slot) -> bool
    ensures { result ≡ some_and is_queue (at machine.now.objects slot) }
{
    match object_at(machine, slot) {
        Some(Object::Queue(_)) => true,
        _ => false,
    }
}

fn has_its_queue(machine: &Machine, reference: &Reference) -> bool
    ensures { result ≡ queue_there machine.now.objects reference.now }
{
    match reference.queue {
        Some(queue) => queue_at(machine, queue),
        None => true,
    }
}

fn references_have_queues(machine: &Machine) -> bool
    ensures { result ≡ list_all (none_or (on_reference (queue_there machine.now.objects))) machine.now.objects }
{
    let mut places = machine.objects.as_slice().iter();
    places.all(|place| match place {
        Some(Object::Reference(reference)) => has_its_queue(machine, reference),
        _ => true,
    })
}

fn has_its_cleanable(machine: &Machine, guard: &Guard) -> bool
    ensures { result ≡ cleanable_there machine.now.objects guard.now }
{
    match object_at(machine, guard.cleanable) {
        Some(Object::Cleanable(_)) => true,
        _ => false,
    }
}

fn guards_have_cleanables(machine: &Machine) -> bool
    ensures { result ≡ list_all (none_or (on_guard (cleanable_there machine.now.objects))) machine.now.objects }
{
    let mut places = machine.objects.as_slice().iter();
    places.all(|place| match place {
        Some(Object::Guard(guard)) => has_its_cleanable(machine, guard),
        _ => true,
    })
}

fn slots_tested(machine: &Machine) -> bool
    ensures { result ≡ slots_fit machine.now }
{
    edges_lead_to_objects(machine)
        && roots_are_objects(machine)
        && references_have_queues(machine)
        && guards_have_cleanables(machine)
}

/// Whether each slot that is named by an object or as a root is an object, each queue of a reference a queue, and what
/// each guard names a cleanable.
#[tactic(auto, using(crate::proofs::SlotsDecided::slots_decided))]
pub fn are_slots_named(machine: &Machine) -> bool
    ensures { IsTrue result ↔ AreSlotsNamed machine.now }
{
    slots_tested(machine)
}

//! What a machine holds, looked up in its tables and lists.
ghost use Rattle.std.specs.Prelude.{◌≡◌, ◌≤◌, length, option_and_then, option_copied};
ghost use Rattle.jlr_machine.specs.Objects.{at, occupied, as_fields, as_reference, as_members, as_cleanable, as_guard};
ghost use Rattle.jlr_machine.specs.Objects.{is_unqueued, queue_ahead, value_at};
ghost use Rattle.jlr_machine.specs.Edges.{slot_in};
ghost use Rattle.jlr_machine.specs.Lookups.{slot_named, object_named, reference_named, members_named, guard_named};
ghost use Rattle.jlr_machine.specs.Lookups.{field_named, has_free_handle, same_name, slot_bound, job_of, resource_at};
ghost use Rattle.jlr_machine.specs.Lookups.{cleanable_at, cleanable_of_guard};

use jlr_machine::items::Items;
use jlr_machine::machine::{Binding, Job, Machine, Resource, Session};
use jlr_machine::object::{Cleanable, Contents, Guard, Object, RefState, Reference};
use jlr_types::{ActionNo, FieldNo, FieldValue, Handle, Mutator, Rid, Slot};

/// The most handles that a mutator holds.
const HANDLES: usize = 250;

/// The session of a mutator.
pub(crate) fn session_of(machine: &Machine, mutator: Mutator) -> Option<&Session>
    ensures { option_copied result ≡ at machine.now.mutators mutator }
{
    machine.mutators.get(mutator.number() as usize)
}

/// The object at a slot.
pub fn object_at(machine: &Machine, slot: Slot) -> Option<&Object>
    ensures { option_copied result ≡ at machine.now.objects slot }
{
    machine.objects.get(slot.number() as usize)
}

fn held(session: &Session, handle: Handle) -> Option<Slot>
    ensures { result ≡ at session.now.handles handle }
{
    match session.handles.get(handle.number() as usize) {
        Some(slot) => Some(*slot),
        None => None,
    }
}

/// The slot that a handle of a mutator stands for.
pub(crate) fn named_slot(machine: &Machine, mutator: Mutator, handle: Handle) -> Option<Slot>
    ensures { result ≡ slot_named machine.now mutator handle }
{
    match session_of(machine, mutator) {
        Some(session) => held(session, handle),
        None => None,
    }
}

/// The object that a handle of a mutator stands for.
pub(crate) fn named_object(machine: &Machine, mutator: Mutator, handle: Handle) -> Option<&Object>
    ensures { option_copied result ≡ object_named machine.now mutator handle }
{
    match named_slot(machine, mutator, handle) {
        Some(slot) => object_at(machine, slot),
        None => None,
    }
}

/// The fields or elements, if it is a plain object.
pub fn fields_of(object: &Object) -> Option<&Contents>
    ensures { option_copied result ≡ as_fields object.now }
{
    match object {
        Object::Plain(fields) => Some(fields),
        _ => None,
    }
}

/// The reference, if it is one.
pub fn reference_of(object: &Object) -> Option<Reference>
    ensures { result ≡ as_reference object.now }
{
    match object {
        Object::Reference(reference) => Some(*reference),
        _ => None,
    }
}

/// The members, if it is a queue.
pub(crate) fn members_of(object: &Object) -> Option<&Items<Slot>>
    ensures { option_copied result ≡ as_members object.now }
{
    match object {
        Object::Queue(members) => Some(members),
        _ => None,
    }
}

/// The cleanable, if it is one.
pub fn cleanable_of(object: &Object) -> Option<Cleanable>
    ensures { result ≡ as_cleanable object.now }
{
    match object {
        Object::Cleanable(cleanable) => Some(*cleanable),
        _ => None,
    }
}

/// The guard, if it is one.
pub fn guard_of(object: &Object) -> Option<Guard>
    ensures { result ≡ as_guard object.now }
{
    match object {
        Object::Guard(guard) => Some(*guard),
        _ => None,
    }
}

/// The reference that a handle stands for.
pub fn named_reference(machine: &Machine, mutator: Mutator, handle: Handle) -> Option<Reference>
    ensures { result ≡ reference_named machine.now mutator handle }
{
    match named_object(machine, mutator, handle) {
        Some(object) => reference_of(object),
        None => None,
    }
}

/// The members of the queue that a handle stands for.
pub(crate) fn named_members(
    machine: &Machine,
    mutator: Mutator,
    handle: Handle,
) -> Option<&Items<Slot>>
    ensures { option_copied result ≡ members_named machine.now mutator handle }
{
    match named_object(machine, mutator, handle) {
        Some(object) => members_of(object),
        None => None,
    }
}

/// The guard that a handle stands for.
pub(crate) fn named_guard(machine: &Machine, mutator: Mutator, handle: Handle) -> Option<Guard>
    ensures { result ≡ guard_named machine.now mutator handle }
{
    match named_object(machine, mutator, handle) {
        Some(object) => guard_of(object),
        None => None,
    }
}

/// What the field or the element of this number holds.
fn value_of(contents: &Contents, field: FieldNo) -> Option<FieldValue>
    ensures { result ≡ value_at contents.now field }
{
    let place = field.number() as usize;
    match contents {
        Contents::Typed(fields) => fields.as_slice().get(place).copied(),
        Contents::Elements(elements) => elements
            .as_slice()
            .get(place)
            .copied()
            .map(FieldValue::Ref),
    }
}

fn field_of(object: &Object, field: FieldNo) -> Option<FieldValue>
    ensures { result ≡ option_and_then (λ fields. value_at fields field) (as_fields object.now) }
{
    match fields_of(object) {
        Some(contents) => value_of(contents, field),
        None => None,
    }
}

/// The field or the element of the plain object that a handle stands for.
pub fn named_field(
    machine: &Machine,
    mutator: Mutator,
    handle: Handle,
    field: FieldNo,
) -> Option<FieldValue>
    ensures { result ≡ field_named machine.now mutator handle field }
{
    match named_object(machine, mutator, handle) {
        Some(object) => field_of(object, field),
        None => None,
    }
}

/// How many places are taken.
pub fn occupied_handles(handles: &[Option<Slot>]) -> usize
    ensures { result ≡ occupied handles.now }
{
    handles.iter().filter(|place| place.is_some()).count()
}

/// How many places are taken.
pub fn occupied_cells(places: &[Option<Object>]) -> usize
    ensures count { result ≡ occupied places.now }
    ensures within { result ≤ length places.now }
{
    let mut count: usize = 0;
    for place in places {
        if place.is_some() {
            count += 1;
        }
    }
    count
}

/// Whether the mutator may hold one more.
pub(crate) fn handle_is_free(machine: &Machine, mutator: Mutator) -> bool
    ensures { result ≡ has_free_handle machine.now mutator }
{
    match session_of(machine, mutator) {
        Some(session) => occupied_handles(session.handles.as_slice()) < HANDLES,
        None => false,
    }
}

/// Whether two names are the same.
pub fn names_agree(left: &[u8], right: &[u8]) -> bool
    ensures { result ≡ same_name left.now right.now }
{
    if left.len() != right.len() {
        return false;
    }
    for i in 0..left.len() {
        if left[i] != right[i] {
            return false;
        }
    }
    true
}

/// The slot that a name stands for.
pub(crate) fn bound_slot(names: &[Binding], name: &[u8]) -> Option<Slot>
    ensures { result ≡ slot_bound names.now name.now }
{
    for binding in names {
        if names_agree(binding.name.as_slice(), name) {
            return Some(binding.slot);
        }
    }
    None
}

/// The running job of an action.
pub fn running_job(machine: &Machine, action: ActionNo) -> Option<Job>
    ensures { result ≡ job_of machine.now action }
{
    for job in machine.jobs.as_slice() {
        if job.action.number() == action.number() {
            return Some(*job);
        }
    }
    None
}

/// The resource that has a Rid.
pub fn resource_with(machine: &Machine, rid: Rid) -> Option<Resource>
    ensures { result ≡ resource_at machine.now rid }
{
    for resource in machine.resources.as_slice() {
        if resource.rid.number() == rid.number() {
            return Some(*resource);
        }
    }
    None
}

/// The cleanable at a slot.
pub fn cleanable_in(machine: &Machine, slot: Slot) -> Option<Cleanable>
    ensures { result ≡ cleanable_at machine.now slot }
{
    match object_at(machine, slot) {
        Some(object) => cleanable_of(object),
        None => None,
    }
}

/// The slot of the cleanable of the guard that a handle stands for.
pub(crate) fn guarded_cleanable(machine: &Machine, mutator: Mutator, handle: Handle) -> Option<Slot>
    ensures { result ≡ cleanable_of_guard machine.now mutator handle }
{
    match named_guard(machine, mutator, handle) {
        Some(guard) => Some(guard.cleanable),
        None => None,
    }
}

/// The object that a field refers to.
pub fn referred(field: &FieldValue) -> Option<Slot>
    ensures { result ≡ slot_in field.now }
{
    match field {
        FieldValue::Int(_) => None,
        FieldValue::Ref(slot) => *slot,
    }
}

/// Whether it is Fresh or Pending.
fn unqueued(state: RefState) -> bool
    ensures { result ≡ is_unqueued state }
{
    match state {
        RefState::Fresh => true,
        RefState::Pending => true,
        RefState::Queued => false,
        RefState::Removed => false,
    }
}

/// The queue that a reference may still be added to.
pub fn queue_of(reference: &Reference) -> Option<Slot>
    ensures { result ≡ queue_ahead reference.now }
{
    if unqueued(reference.state) {
        return reference.queue;
    }
    None
}

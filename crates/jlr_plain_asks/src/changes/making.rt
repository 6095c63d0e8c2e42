//! New objects.
ghost use Rattle.std.specs.Prelude.{◌≡◌, ◌+◌, ◌^◌, ◌<◌, map, replicate, ◌++◌, ◌∷◌, [], true, IfOk, None, OnOk};
ghost use Rattle.jlr_machine.specs.declared.object.Contents.{Contents as ContentsOf};
ghost use Rattle.jlr_machine.specs.declared.object.Contents.TheVariants.{Typed};
ghost use Rattle.jlr_machine.specs.declared.object.Object.TheVariants.{Cleanable as CleanableObject, Plain};
ghost use Rattle.jlr_machine.specs.declared.object.RefState.TheVariants.{Fresh};
ghost use Rattle.jlr_machine.specs.declared.machine.ResourceState.TheVariants.{Opening};
ghost use Rattle.jlr_machine.specs.declared.ask.Ask.TheVariants.{Prepare};
ghost use Rattle.jlr_machine.specs.Lookups.{blank, slot_named};
ghost use Rattle.jlr_machine.specs.Calls.{made, registered, prepared, prepared_in, after};
ghost use Rattle.jlr_plain_asks.specs.Counts.{HasNextAction};
ghost use Rattle.jlr_plain_asks.specs.Making.{comes_with, IsReady, IsReadyFor, IsResourceReady};

use crate::changes::lists::resource_added;
use crate::changes::objects::put_place;
use crate::changes::queues::hold;
use crate::changes::takes::put_in_call;
use crate::lookups::named_slot;
use jlr_machine::ask::{Answer, Ask};
use jlr_machine::items::Items;
use jlr_machine::machine::{Call, Machine, Resource, ResourceState};
use jlr_machine::object::{
    CleanState, Cleanable, Contents, Elements, Fields, Guard, Object, RefState, Reference,
};
use jlr_types::{
    ActionNo, FieldKind, FieldValue, Handle, Layout, Length, Mutator, RefKind, Rid, Slot, Work,
};
use std::alloc::{AllocError, Global};

/// Puts a new object into the first fresh slot, held by the mutator. Takes no memory.
fn make(alloc: Global, machine: &mut Machine, mutator: Mutator, fresh: &[Slot], object: Object)
    ensures { machine.new ≡ made machine.old mutator fresh.now object }
{
    let Some(slot) = fresh.first().copied() else {
        return;
    };
    put_place(alloc, machine, slot, Some(object));
    hold(alloc, machine, mutator, Some(slot));
}

// ---- What takes memory, made before anything changes

/// What an ask that makes objects takes memory for.
#[derive(Drop)]
pub enum Ready {
    Nothing,
    /// What a plain object holds.
    Contents(Contents),
    /// The resources with the one that opens.
    Resources(Items<Resource>),
}

/// A blank field more.
fn push_blank(out: &mut Vec<FieldValue>, kind: FieldKind) -> Result<(), AllocError>
    ensures { OnOk result (out.new.items ≡ out.old.items ++ blank kind ∷ []) }
{
    let null: Option<Slot> = None;
    let value = match kind {
        FieldKind::Int => FieldValue::Int(0),
        FieldKind::Ref => FieldValue::Ref(null),
    };
    out.push(value)?;
    Ok(())
}

/// The fields of a new plain object.
fn blank_fields(alloc: Global, layout: &Layout) -> Result<Vec<FieldValue>, AllocError>
    ensures { IfOk result (λ v. v.items ≡ map blank layout.now) }
{
    let mut out: Vec<FieldValue> = Vec::new(alloc);
    for field in 0..layout.len() {
        if let Some(kind) = layout.get(field) {
            push_blank(&mut out, kind)?;
        }
    }
    Ok(out)
}

/// The elements of a new array: so many nulls.
fn null_elements(alloc: Global, length: Length) -> Result<Elements, AllocError>
    ensures { IfOk result (λ e. e ≡ replicate length None) }
{
    let mut slots: Vec<Option<Slot>> = Vec::new(alloc);
    slots.resize(length.number() as usize, None)?;
    Ok(Elements::from_vec(slots).unwrap())
}

/// What a new plain object of this layout holds.
fn blank_contents(alloc: Global, layout: &Layout) -> Result<Contents, AllocError>
    ensures { IfOk result (λ c. c ≡ Typed (map blank layout.now)) }
{
    let fields = blank_fields(alloc, layout)?;
    // At most eight, as a layout's length tells.
    let _count = layout.len();
    Ok(Contents::Typed(Fields::from_vec(fields).unwrap()))
}

/// The resource that an answer gives a Rid to, Opening.
fn opening(machine: &Machine, rid: Rid) -> Resource
    ensures { result ≡ record { rid = rid; action = machine.now.next_action; state = Opening } }
{
    Resource {
        rid,
        action: ActionNo::new(machine.next_action),
        state: ResourceState::Opening,
    }
}

fn resources_ready(alloc: Global, machine: &Machine, answer: &Answer) -> Result<Ready, AllocError>
    ensures { IfOk result (λ r. IsResourceReady machine.now answer.now r) }
{
    match answer {
        Answer::Prepared(rid) => {
            let resource = opening(machine, *rid);
            let resources = resource_added(alloc, machine.resources.as_slice(), resource)?;
            Ok(Ready::Resources(Items::from_vec(resources)))
        }
        _ => Ok(Ready::Nothing),
    }
}

/// What an ask takes memory for, if it makes objects.
///
/// # Errors
/// `AllocError` where there is no memory.
pub fn ready_for(
    alloc: Global,
    machine: &Machine,
    ask: &Ask,
    answer: &Answer,
) -> Result<Ready, AllocError>
    ensures { IfOk result (λ r. IsReady machine.now ask.now answer.now r) }
{
    match ask {
        Ask::New { layout, .. } => Ok(Ready::Contents(blank_contents(alloc, layout)?)),
        Ask::Array { length, .. } => {
            let elements = null_elements(alloc, *length)?;
            Ok(Ready::Contents(Contents::Elements(elements)))
        }
        Ask::Prepare { .. } => resources_ready(alloc, machine, answer),
        _ => Ok(Ready::Nothing),
    }
}

// ---- What takes none

/// Makes a plain object of what is ready.
fn make_plain(alloc: Global, machine: &mut Machine, mutator: Mutator, fresh: &[Slot], ready: Ready)
    requires { (c : ContentsOf) × (ready ≡ Ready.Contents c) }
    ensures { (c : ContentsOf) → ready ≡ Ready.Contents c → machine.new ≡ made machine.old mutator fresh.now (Plain c) }
{
    match ready {
        Ready::Contents(contents) => make(alloc, machine, mutator, fresh, Object::Plain(contents)),
        _ => unreachable!(),
    }
}

/// A new reference.
fn new_reference(
    machine: &Machine,
    mutator: Mutator,
    kind: RefKind,
    referent: Handle,
    queue: Handle,
) -> Reference
    ensures { result ≡ record {
      kind = kind;
      referent = slot_named machine.now mutator referent;
      queue = slot_named machine.now mutator queue;
      state = Fresh;
    } }
{
    Reference {
        kind,
        referent: named_slot(machine, mutator, referent),
        queue: named_slot(machine, mutator, queue),
        state: RefState::Fresh,
    }
}

/// A new cleanable with a note.
fn new_cleanable(machine: &Machine, mutator: Mutator, object: Handle, note: u32) -> Cleanable
    ensures { CleanableObject result ≡ registered machine.now mutator object note }
{
    Cleanable {
        referent: named_slot(machine, mutator, object),
        action: ActionNo::new(machine.next_action),
        work: Work::Note(note),
        state: CleanState::Armed,
    }
}

fn register(
    alloc: Global,
    machine: &mut Machine,
    mutator: Mutator,
    fresh: &[Slot],
    object: Handle,
    note: u32,
)
    requires { machine.old.next_action + 1 < 2 ^ 64 }
    ensures { machine.new ≡ record (made machine.old mutator fresh.now
        (registered machine.old mutator object note)) { next_action = machine.old.next_action + 1 } }
{
    let next_action = machine.next_action + 1;
    let cleanable = new_cleanable(machine, mutator, object, note);
    make(alloc, machine, mutator, fresh, Object::Cleanable(cleanable));
    machine.next_action = next_action;
}

/// A guard and its cleanable, with a resource Opening.
fn prepare_at(
    alloc: Global,
    machine: &mut Machine,
    mutator: Mutator,
    guard: Slot,
    cleanable: Slot,
    rid: Rid,
    resources: Items<Resource>,
)
    requires actions { machine.old.next_action + 1 < 2 ^ 64 }
    requires ready { IsReadyFor machine.old rid resources }
    ensures { machine.new ≡ prepared machine.old mutator guard cleanable rid }
{
    let armed = Cleanable {
        referent: Some(guard),
        action: ActionNo::new(machine.next_action),
        work: Work::Resource(rid),
        state: CleanState::Armed,
    };
    let object = Object::Guard(Guard { rid, cleanable });
    put_place(alloc, machine, guard, Some(object));
    put_place(alloc, machine, cleanable, Some(Object::Cleanable(armed)));
    machine.resources = resources;
    machine.next_action += 1;
    put_in_call(alloc, machine, mutator, Some(guard), Call::Opening(rid));
}

/// The same in the two fresh slots.
fn prepare(
    alloc: Global,
    machine: &mut Machine,
    mutator: Mutator,
    fresh: &[Slot],
    rid: Rid,
    resources: Items<Resource>,
)
    requires actions { machine.old.next_action + 1 < 2 ^ 64 }
    requires ready { IsReadyFor machine.old rid resources }
    ensures { machine.new ≡ prepared_in machine.old mutator fresh.now rid }
{
    match fresh {
        [guard, cleanable] => {
            prepare_at(alloc, machine, mutator, *guard, *cleanable, rid, resources);
        }
        _ => drop(resources),
    }
}

fn prepare_answered(
    alloc: Global,
    machine: &mut Machine,
    mutator: Mutator,
    answer: &Answer,
    fresh: &[Slot],
    ready: Ready,
)
    requires actions { machine.old.next_action + 1 < 2 ^ 64 }
    requires ready { IsReady machine.old (Prepare mutator) answer.now ready }
    ensures { machine.new ≡ after machine.old (Prepare mutator) answer.now fresh.now }
{
    let Answer::Prepared(rid) = answer else {
        drop(ready);
        return;
    };
    match ready {
        Ready::Resources(resources) => prepare(alloc, machine, mutator, fresh, *rid, resources),
        _ => unreachable!(),
    }
}

/// Carries out an ask that may come with a collection, with what it takes memory for.
pub fn make_asked(
    alloc: Global,
    machine: &mut Machine,
    ask: &Ask,
    answer: &Answer,
    fresh: &[Slot],
    ready: Ready,
)
    requires comes { comes_with ask.now ≡ true }
    requires actions { HasNextAction machine.old.next_action ask.now }
    requires ready { IsReady machine.old ask.now answer.now ready }
    ensures { machine.new ≡ after machine.old ask.now answer.now fresh.now }
{
    match ask {
        Ask::New { mutator, .. } | Ask::Array { mutator, .. } => {
            make_plain(alloc, machine, *mutator, fresh, ready);
        }
        Ask::MakeRef {
            mutator,
            kind,
            referent,
            queue,
        } => {
            let reference = new_reference(machine, *mutator, *kind, *referent, *queue);
            make(
                alloc,
                machine,
                *mutator,
                fresh,
                Object::Reference(reference),
            );
        }
        Ask::MakeQueue { mutator } => {
            make(
                alloc,
                machine,
                *mutator,
                fresh,
                Object::Queue(Items::new(alloc)),
            );
        }
        Ask::MakeCleaner { mutator } => make(alloc, machine, *mutator, fresh, Object::Cleaner),
        Ask::Register {
            mutator,
            object,
            note,
            ..
        } => register(alloc, machine, *mutator, fresh, *object, *note),
        Ask::Prepare { mutator } => {
            prepare_answered(alloc, machine, *mutator, answer, fresh, ready);
        }
        Ask::Full { .. } | Ask::Collect => {}
        _ => unreachable!(),
    }
}

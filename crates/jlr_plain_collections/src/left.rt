//! The machine that a collection leaves.
ghost use Rattle.std.specs.Prelude.{◌≡◌, ◌++◌, cond, false, option_map, None, IfOk, []};
ghost use Rattle.jlr_machine.specs.Objects.{◌∋◌};
ghost use Rattle.jlr_machine.specs.Collection.{referent_if_kept, left_of, places_left, after_collection};
ghost use Rattle.jlr_machine.specs.Run.{with_collection};
ghost use Rattle.jlr_machine.specs.declared.object.Object.TheVariants.{Reference as ReferenceObject};
ghost use Rattle.jlr_machine.specs.declared.object.Object.TheVariants.{Cleanable as CleanableObject};

use crate::edges::push_all;
use crate::listed::SlotList;
use jlr_machine::copies::copy_machine;
use jlr_machine::copy::copy_slice;
use jlr_machine::entry::{Chosen, Collected};
use jlr_machine::items::Items;
use jlr_machine::kept::KeptSlots;
use jlr_machine::machine::Machine;
use jlr_machine::object::{CleanState, Cleanable, Object, RefState, Reference};
use jlr_machine::table::Table;
use jlr_types::Slot;
use std::alloc::{AllocError, Global};
use std::mem::replace;

/// A referent that is kept.
fn kept_referent(kept: &KeptSlots, referent: Option<Slot>) -> Option<Slot>
    ensures { result ≡ referent_if_kept kept.now referent }
{
    let Some(slot) = referent else {
        return None;
    };
    if kept.holds(slot.number() as usize) {
        return Some(slot);
    }
    None
}

fn left_reference(kept: &KeptSlots, listed: bool, reference: &Reference) -> Reference
    ensures { ReferenceObject result ≡ left_of kept.now listed (ReferenceObject reference.now) }
{
    let state = if listed {
        RefState::Pending
    } else {
        reference.state
    };
    Reference {
        kind: reference.kind,
        referent: kept_referent(kept, reference.referent),
        queue: reference.queue,
        state,
    }
}

fn left_cleanable(kept: &KeptSlots, listed: bool, cleanable: &Cleanable) -> Cleanable
    ensures { CleanableObject result ≡ left_of kept.now listed (CleanableObject cleanable.now) }
{
    let state = if listed {
        CleanState::Pending
    } else {
        cleanable.state
    };
    Cleanable {
        referent: kept_referent(kept, cleanable.referent),
        action: cleanable.action,
        work: cleanable.work,
        state,
    }
}

/// Makes of a kept object what the collection leaves, which put it behind the pending list or not.
fn leave_object(kept: &KeptSlots, listed: bool, object: &mut Object)
    ensures { object.new ≡ left_of kept.now listed object.old }
{
    match object {
        Object::Reference(r) => *r = left_reference(kept, listed, r),
        Object::Cleanable(c) => *c = left_cleanable(kept, listed, c),
        _ => {}
    }
}

fn leave_place(kept: &KeptSlots, pending: &SlotList, number: usize, place: &mut Option<Object>)
    ensures { place.new ≡ cond (kept.now ∋ number) (option_map (left_of kept.now (pending.now ∋ number)) place.old)
        None }
{
    if !kept.holds(number) {
        *place = None;
        return;
    }
    if let Some(object) = place {
        leave_object(kept, pending.has_number(number), object);
    }
}

fn leave_places(kept: &KeptSlots, pending: &SlotList, places: &mut [Option<Object>])
    ensures { places.new ≡ places_left kept.now pending.now 0 places.old }
{
    for i in 0..places.len() {
        leave_place(kept, pending, i, &mut places[i]);
    }
}

fn objects_left(kept: &KeptSlots, pending: &SlotList, objects: Table<Object>) -> Table<Object>
    ensures { result ≡ places_left kept.now pending.now 0 objects }
{
    let mut places = objects.into_vec();
    leave_places(kept, pending, places.as_mut_slice());
    Table::from_vec(places)
}

fn pending_with(alloc: Global, old: &[Slot], more: &[Slot]) -> Result<Items<Slot>, AllocError>
    ensures { IfOk result (λ l. l ≡ old.now ++ more.now) }
{
    let mut out = Vec::new(alloc);
    push_all(&mut out, old)?;
    push_all(&mut out, more)?;
    Ok(Items::from_vec(out))
}

fn list_of(alloc: Global, cells: usize, slots: &[Slot]) -> Result<SlotList, AllocError>
    ensures { IfOk result (λ l. l ≡ slots.now) }
{
    SlotList::from_vec(alloc, cells, copy_slice(alloc, slots)?)
}

/// What a collection takes memory for, made before anything changes: what it put behind the pending list, and that list
/// then.
#[derive(Drop)]
pub struct Leaving {
    listed: SlotList,
    pending: Items<Slot>,
}

/// What a collection takes memory for.
///
/// # Errors
/// `AllocError` where there is no memory.
pub fn make_leaving(alloc: Global, machine: &Machine, c: &Collected) -> Result<Leaving, AllocError>
    ensures { IfOk result (λ l. (l.listed ≡ c.now.pending) × (l.pending ≡ machine.now.pending ++ c.now.pending)) }
{
    let cells = machine.objects.len();
    let pending = pending_with(alloc, machine.pending.as_slice(), c.pending.as_slice())?;
    let Ok(listed) = list_of(alloc, cells, c.pending.as_slice()) else {
        drop(pending);
        return Err(AllocError);
    };
    Ok(Leaving { listed, pending })
}

/// Collects, where these are kept and so much is listed. Takes no memory.
pub fn leave_in(alloc: Global, machine: &mut Machine, kept: &KeptSlots, leaving: Leaving)
    ensures { machine.new ≡ record machine.old {
      objects = places_left kept.now leaving.listed 0 machine.old.objects;
      pending = leaving.pending;
      cycle_open = false;
      seen = [];
    } }
{
    let Leaving { listed, pending } = leaving;
    let objects = replace(&mut machine.objects, Table::from_vec(Vec::new(alloc)));
    machine.objects = objects_left(kept, &listed, objects);
    machine.pending = pending;
    machine.cycle_open = false;
    machine.seen = Items::new(alloc);
}

/// The machine that a collection leaves. Where memory runs out, the one before is dropped by a call, for the prover.
fn collected(alloc: Global, machine: Machine, c: &Collected) -> Result<Machine, AllocError>
    ensures { IfOk result (λ n. n ≡ after_collection machine c.now.kept c.now.pending) }
{
    let mut next = machine;
    match make_leaving(alloc, &next, c) {
        Ok(leaving) => {
            leave_in(alloc, &mut next, &c.kept, leaving);
            Ok(next)
        }
        Err(fault) => {
            drop(next);
            Err(fault)
        }
    }
}

/// The machine in which an ask is carried out, after its collection, where there was one. The machine is given up for
/// it.
pub fn collect_in(alloc: Global, machine: Machine, choice: &Chosen) -> Result<Machine, AllocError>
    ensures { IfOk result (λ n. n ≡ with_collection machine choice.now.collected) }
{
    match choice.collected() {
        Some(c) => collected(alloc, machine, c),
        None => Ok(machine),
    }
}

/// The same, made of a copy.
pub fn collected_plain(
    alloc: Global,
    machine: &Machine,
    choice: &Chosen,
) -> Result<Machine, AllocError>
    ensures { IfOk result (λ n. n ≡ with_collection machine.now choice.now.collected) }
{
    let copy = copy_machine(alloc, machine)?;
    collect_in(alloc, copy, choice)
}

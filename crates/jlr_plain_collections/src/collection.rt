//! Whether a collection is a legal one.
ghost use Rattle.std.specs.Prelude.{◌≡◌, ℕ, ◌<◌, length, [], not, ◌||◌, IfOk, is_some};
ghost use Rattle.std.specs.List.{list_all};
ghost use Rattle.jlr_machine.specs.Objects.{◌∋◌, ◌∈◌, at, is_distinct, is_rising, any_referent};
ghost use Rattle.jlr_machine.specs.Edges.{edges_from};
ghost use Rattle.jlr_machine.specs.Collection.{is_ready};
ghost use Rattle.jlr_machine.specs.ReachSet.{reach_set};
ghost use Rattle.jlr_machine.specs.Edges.Chain.{Strong};
ghost use Rattle.jlr_plain_collections.specs.Marks.{has_mark, IsTable, chain_of};
ghost use Rattle.jlr_laws.specs.Laws.{IsWithinHeap, only};
ghost use Rattle.jlr_laws.specs.Deciding.{cuts_off, cuts_off_in_background, holds_all, are_objects, is_closed_set};
ghost use Rattle.jlr_laws.specs.Deciding.{goes_out, loses_referent, hands_over};

use crate::edges::list_edges;
use crate::listed::{SlotList, unmarked};
use crate::reached::{is_marked_at, mark, mark_reached};
use jlr_machine::copy::copy_slice;
use jlr_machine::object::{CleanState, Object, RefState};
use jlr_machine::table::Table;
use jlr_types::Slot;
use std::alloc::{AllocError, Global};

/// Whether a set holds a slot.
pub fn holds(slots: &[Slot], slot: Slot) -> bool
    ensures { result ≡ (slots.now ∋ slot) }
{
    slots.iter().any(|x| slot.number() == x.number())
}

pub fn has_number(slots: &[Slot], number: usize) -> bool
    ensures { result ≡ (slots.now ∋ number) }
{
    slots.iter().any(|x| number == x.number() as usize)
}

/// Whether a set holds all of these.
fn all_held(kept: &SlotList, slots: &[Slot]) -> bool
    ensures { result ≡ holds_all kept.now slots.now }
{
    slots.iter().all(|&slot| kept.holds(slot))
}

pub fn distinct(slots: &[Slot]) -> bool
    ensures { result ≡ is_distinct slots.now }
{
    let mut i: usize = 0;
    while i < slots.len() {
        if holds(&slots[i + 1..], slots[i]) {
            return false;
        }
        i += 1;
    }
    true
}

/// Whether none of these is there twice. It marks them, from the last on.
fn all_new(marks: &mut [bool], slots: &[Slot]) -> bool
    requires none { IsTable [] marks.old }
    requires within { (s : ℕ) → s ∈ slots.now → s < length marks.old }
    ensures { result ≡ is_distinct slots.now }
{
    let mut i = slots.len();
    while i > 0 {
        i -= 1;
        if !mark(marks, slots[i]) {
            return false;
        }
    }
    true
}

/// The same of slots below the cells.
fn distinct_below(alloc: Global, cells: usize, slots: &[Slot]) -> Result<bool, AllocError>
    requires { (s : ℕ) → s ∈ slots.now → s < cells }
    ensures { IfOk result (λ b. b ≡ is_distinct slots.now) }
{
    let mut marks = unmarked(alloc, cells)?;
    let once = all_new(&mut marks, slots);
    Ok(once)
}

fn rising(slots: &[Slot]) -> bool
    ensures { result ≡ is_rising slots.now }
{
    if slots.is_empty() {
        return true;
    }
    let mut i: usize = 0;
    while i < slots.len() - 1 {
        if slots[i].number() >= slots[i + 1].number() {
            return false;
        }
        i += 1;
    }
    true
}

/// The referent, of whatever kind.
fn referent_of(object: &Object) -> Option<Slot>
    ensures { result ≡ any_referent object.now }
{
    match object {
        Object::Reference(r) => r.referent,
        Object::Cleanable(c) => c.referent,
        _ => None,
    }
}

/// Whether it is a Fresh reference with a queue, or an Armed cleanable.
fn ready(object: &Object) -> bool
    ensures { result ≡ is_ready object.now }
{
    match object {
        Object::Reference(r) => matches!(r.state, RefState::Fresh) && r.queue.is_some(),
        Object::Cleanable(c) => matches!(c.state, CleanState::Armed),
        _ => false,
    }
}

fn leads_out(kept: &SlotList, object: &Object) -> bool
    ensures { result ≡ goes_out kept.now object.now }
{
    if !ready(object) {
        return false;
    }
    match referent_of(object) {
        Some(slot) => !kept.holds(slot),
        None => false,
    }
}

fn loses(objects: &Table<Object>, kept: &SlotList, slot: Slot) -> bool
    ensures { result ≡ loses_referent objects.now kept.now slot }
{
    if !kept.holds(slot) {
        return false;
    }
    match objects.get(slot.number() as usize) {
        Some(object) => leads_out(kept, object),
        None => false,
    }
}

/// Whether all of these lose a referent.
fn all_lose(objects: &Table<Object>, kept: &SlotList, slots: &[Slot]) -> bool
    ensures { result ≡ list_all (loses_referent objects.now kept.now) slots.now }
{
    slots.iter().all(|&slot| loses(objects, kept, slot))
}

fn is_handed(objects: &Table<Object>, kept: &SlotList, pending: &SlotList, slot: Slot) -> bool
    ensures { result ≡ (not (loses_referent objects.now kept.now slot) || (pending.now ∋ slot)) }
{
    !loses(objects, kept, slot) || pending.holds(slot)
}

/// Whether all of these that lose a referent are handed over.
fn all_handed(objects: &Table<Object>, kept: &SlotList, pending: &SlotList, slots: &[Slot]) -> bool
    ensures { result ≡ list_all (λ s. not (loses_referent objects.now kept.now s) || (pending.now ∋ s)) slots.now }
{
    slots
        .iter()
        .all(|&slot| is_handed(objects, kept, pending, slot))
}

/// Handed over are, once each, just the kept objects that lose a referent.
fn handed(
    alloc: Global,
    objects: &Table<Object>,
    kept: &SlotList,
    pending: &[Slot],
) -> Result<bool, AllocError>
    ensures { IfOk result (λ b. b ≡ hands_over objects.now kept.now pending.now) }
{
    if !all_lose(objects, kept, pending) {
        return Ok(false);
    }
    let once = distinct_below(alloc, objects.len(), pending)?;
    let listed = SlotList::from_vec(alloc, objects.len(), copy_slice(alloc, pending)?)?;
    let none_left = all_handed(objects, kept, &listed, kept.as_slice());
    Ok(none_left && once && rising(kept.as_slice()))
}

fn edges_held(
    edges: &mut Vec<Slot>,
    objects: &Table<Object>,
    kept: &SlotList,
    slot: Slot,
) -> Result<bool, AllocError>
    ensures { IfOk result (λ b. b ≡ holds_all kept.now (edges_from Strong objects.now slot)) }
{
    list_edges(edges, objects, slot, false)?;
    Ok(all_held(kept, edges.as_slice()))
}

/// Whether all that strong edges lead to from these is kept.
fn all_edges_held(
    alloc: Global,
    objects: &Table<Object>,
    kept: &SlotList,
    slots: &[Slot],
) -> Result<bool, AllocError>
    ensures { IfOk result (λ b. b ≡ list_all (λ x. holds_all kept.now (edges_from Strong objects.now x)) slots.now) }
{
    let mut edges = Vec::new(alloc);
    for &slot in slots {
        if !edges_held(&mut edges, objects, kept, slot)? {
            return Ok(false);
        }
    }
    Ok(true)
}

fn closed(alloc: Global, objects: &Table<Object>, kept: &SlotList) -> Result<bool, AllocError>
    ensures { IfOk result (λ b. b ≡ is_closed_set objects.now kept.now) }
{
    all_edges_held(alloc, objects, kept, kept.as_slice())
}

fn all_marked(marks: &[bool], slots: &[Slot]) -> bool
    ensures { result ≡ list_all (has_mark marks.now) slots.now }
{
    slots.iter().all(|&slot| is_marked_at(marks, slot))
}

fn inside(
    alloc: Global,
    objects: &Table<Object>,
    base: &[Slot],
    kept: &SlotList,
    softly: bool,
) -> Result<bool, AllocError>
    requires { IsWithinHeap objects.now base.now }
    ensures { IfOk result
        (λ b. b ≡ holds_all (reach_set (chain_of softly) (only kept.now objects.now) base.now) kept.now) }
{
    let mut marks = unmarked(alloc, objects.len())?;
    mark_reached(alloc, objects, base, kept, &mut marks, softly)?;
    Ok(all_marked(marks.as_slice(), kept.as_slice()))
}

fn is_cut_off(
    alloc: Global,
    objects: &Table<Object>,
    base: &[Slot],
    kept: &SlotList,
    pending: &[Slot],
    softly: bool,
) -> Result<bool, AllocError>
    requires { IsWithinHeap objects.now base.now }
    ensures { IfOk result (λ b. b ≡ cuts_off (chain_of softly) objects.now base.now kept.now pending.now) }
{
    if !all_held(kept, base) {
        return Ok(false);
    }
    if !closed(alloc, objects, kept)? {
        return Ok(false);
    }
    if !inside(alloc, objects, base, kept, softly)? {
        return Ok(false);
    }
    handed(alloc, objects, kept, pending)
}

/// Such a list of these slots.
pub(crate) fn listed(
    alloc: Global,
    objects: &Table<Object>,
    slots: &[Slot],
) -> Result<SlotList, AllocError>
    ensures { IfOk result (λ l. l ≡ slots.now) }
{
    SlotList::from_vec(alloc, objects.len(), copy_slice(alloc, slots)?)
}

/// Whether a collection that counts the base as reachable may keep these and hand those over; one that is not `softly`
/// done clears all soft references.
pub(crate) fn tested(
    alloc: Global,
    objects: &Table<Object>,
    base: &[Slot],
    kept: &[Slot],
    pending: &[Slot],
    softly: bool,
) -> Result<bool, AllocError>
    requires { IsWithinHeap objects.now base.now }
    ensures { IfOk result (λ b. b ≡ cuts_off (chain_of softly) objects.now base.now kept.now pending.now) }
{
    let kept = listed(alloc, objects, kept)?;
    is_cut_off(alloc, objects, base, &kept, pending, softly)
}

/// The same of one that clears all soft references.
pub(crate) fn is_clearing_plain(
    alloc: Global,
    objects: &Table<Object>,
    base: &[Slot],
    kept: &[Slot],
    pending: &[Slot],
) -> Result<bool, AllocError>
    requires { IsWithinHeap objects.now base.now }
    ensures { IfOk result (λ b. b ≡ cuts_off Strong objects.now base.now kept.now pending.now) }
{
    tested(alloc, objects, base, kept, pending, false)
}

fn is_object_at(objects: &Table<Object>, slot: Slot) -> bool
    ensures { result ≡ is_some (at objects.now slot) }
{
    objects.get(slot.number() as usize).is_some()
}

/// Whether there is an object at each of these slots.
fn all_objects(objects: &Table<Object>, slots: &[Slot]) -> bool
    ensures { result ≡ are_objects objects.now slots.now }
{
    slots.iter().all(|&slot| is_object_at(objects, slot))
}

fn is_cut_off_in_background(
    alloc: Global,
    objects: &Table<Object>,
    roots: &[Slot],
    seen: &SlotList,
    kept: &SlotList,
    pending: &[Slot],
) -> Result<bool, AllocError>
    ensures { IfOk result (λ b. b ≡ cuts_off_in_background objects.now roots.now seen.now kept.now pending.now) }
{
    if !all_held(seen, kept.as_slice()) {
        return Ok(false);
    }
    if !all_objects(objects, kept.as_slice()) {
        return Ok(false);
    }
    if !all_held(kept, roots) {
        return Ok(false);
    }
    if !closed(alloc, objects, kept)? {
        return Ok(false);
    }
    handed(alloc, objects, kept, pending)
}

/// Whether a background collection, with these roots and with this seen, may keep these and hand those over.
pub(crate) fn is_background_plain(
    alloc: Global,
    objects: &Table<Object>,
    roots: &[Slot],
    seen: &[Slot],
    kept: &[Slot],
    pending: &[Slot],
) -> Result<bool, AllocError>
    ensures { IfOk result (λ b. b ≡ cuts_off_in_background objects.now roots.now seen.now kept.now pending.now) }
{
    let seen = listed(alloc, objects, seen)?;
    let kept = listed(alloc, objects, kept)?;
    is_cut_off_in_background(alloc, objects, roots, &seen, &kept, pending)
}

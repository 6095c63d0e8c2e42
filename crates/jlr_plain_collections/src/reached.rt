//! Marking what edges reach.
ghost use Rattle.std.specs.Prelude.{◌≡◌, ℕ, ◌<◌, true, false, replicate, length, slice_set, not, OnOk};
ghost use Rattle.jlr_machine.specs.Objects.{◌∋◌, ◌∈◌};
ghost use Rattle.jlr_machine.specs.Edges.{edges_from};
ghost use Rattle.jlr_machine.specs.ReachSet.{reach_set};
ghost use Rattle.jlr_plain_collections.specs.Marks.{has_mark, Greyed, chain_of};
ghost use Rattle.jlr_laws.specs.Laws.{IsWithinHeap, only};

use crate::edges::list_edges;
use crate::listed::SlotList;
use jlr_machine::object::Object;
use jlr_machine::table::Table;
use jlr_types::Slot;
use std::alloc::{AllocError, Global};

/// Marks the slot, and says whether it was unmarked.
pub(crate) fn mark(marks: &mut [bool], slot: Slot) -> bool
    requires { slot < length marks.old }
    ensures marks { marks.new ≡ slice_set marks.old slot true }
    ensures new { result ≡ not (has_mark marks.old slot) }
{
    let i = slot.number() as usize;
    let old = marks[i];
    marks[i] = true;
    !old
}

/// Marks the slot. Where it was unmarked, its edges are looked at later.
fn grey(marks: &mut [bool], todo: &mut Vec<Slot>, slot: Slot) -> Result<(), AllocError>
    requires { slot < length marks.old }
    ensures { OnOk result (Greyed (λ s. s ≡ slot) marks.old todo.old.items marks.new todo.new.items) }
{
    if mark(marks, slot) {
        todo.push(slot)?;
    }
    Ok(())
}

fn grey_all(marks: &mut [bool], todo: &mut Vec<Slot>, slots: &[Slot]) -> Result<(), AllocError>
    requires { (s : ℕ) → s ∈ slots.now → s < length marks.old }
    ensures { OnOk result (Greyed (λ s. s ∈ slots.now) marks.old todo.old.items marks.new todo.new.items) }
{
    for &slot in slots {
        grey(marks, todo, slot)?;
    }
    Ok(())
}

/// Marks what edges lead to from a slot inside the kept set.
fn spread(
    objects: &Table<Object>,
    kept: &SlotList,
    slot: Slot,
    edges: &mut Vec<Slot>,
    marks: &mut [bool],
    todo: &mut Vec<Slot>,
    softly: bool,
) -> Result<(), AllocError>
    requires { (s : ℕ) → s ∈ edges_from (chain_of softly) objects.now slot → s < length marks.old }
    ensures { OnOk result (Greyed (λ s. s ∈ edges_from (chain_of softly) (only kept.now objects.now) slot) marks.old
        todo.old.items marks.new todo.new.items) }
{
    if !kept.holds(slot) {
        return Ok(());
    }
    list_edges(edges, objects, slot, softly)?;
    grey_all(marks, todo, edges.as_slice())?;
    Ok(())
}

/// Marks what strong and soft edges, or strong ones alone, reach from the base inside the kept set. Each slot is looked
/// at once.
pub(crate) fn mark_reached(
    alloc: Global,
    objects: &Table<Object>,
    base: &[Slot],
    kept: &SlotList,
    marks: &mut [bool],
    softly: bool,
) -> Result<(), AllocError>
    requires within { IsWithinHeap objects.now base.now }
    requires unmarked { marks.old ≡ replicate (length objects.now) false }
    ensures long { OnOk result (length marks.new ≡ length marks.old) }
    ensures reached { OnOk result ((s : ℕ) → has_mark marks.new s ≡
        (reach_set (chain_of softly) (only kept.now objects.now) base.now ∋ s)) }
{
    let mut edges = Vec::new(alloc);
    let mut todo = Vec::new(alloc);
    grey_all(marks, &mut todo, base)?;
    while let Some(slot) = todo.pop() {
        spread(objects, kept, slot, &mut edges, marks, &mut todo, softly)?;
    }
    Ok(())
}

pub(crate) fn is_marked_at(marks: &[bool], slot: Slot) -> bool
    ensures { result ≡ has_mark marks.now slot }
{
    let i = slot.number() as usize;
    if i < marks.len() {
        return marks[i];
    }
    false
}

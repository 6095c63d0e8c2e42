//! What was seen in an open cycle.
ghost use Rattle.std.specs.Prelude.{◌≡◌, ℕ, ◌<◌, ◌≤◌, ◌^◌, ◌||◌, ◌++◌, ◌∷◌, [], cond, filter, length, IfOk, OnOk};
ghost use Rattle.jlr_machine.specs.Objects.{◌∋◌};
ghost use Rattle.jlr_machine.specs.Edges.{roots};
ghost use Rattle.jlr_machine.specs.Edges.Chain.{UpToSoft};
ghost use Rattle.jlr_machine.specs.ReachSet.{up_to, reach_set};
ghost use Rattle.jlr_machine.specs.Run.{seen_with, now_seen};
ghost use Rattle.jlr_laws.specs.Laws.{IsWithinHeap};
ghost use Rattle.jlr_plain_collections.specs.Marks.{has_mark};

use crate::collection::listed;
use crate::listed::{SlotList, unmarked};
use crate::reached::{is_marked_at, mark_reached};
use crate::roots::roots_plain;
use jlr_machine::machine::Machine;
use jlr_types::Slot;
use std::alloc::{AllocError, Global};

fn push_slot(out: &mut Vec<Slot>, number: usize) -> Result<(), AllocError>
    requires { number < 2 ^ 32 }
    ensures { OnOk result (out.new.items ≡ out.old.items ++ number ∷ []) }
{
    out.push(Slot::new(number as u32))?;
    Ok(())
}

fn all_slots(alloc: Global, cells: usize) -> Result<Vec<Slot>, AllocError>
    requires { cells ≤ 2 ^ 32 }
    ensures { IfOk result (λ v. v.items ≡ up_to 0 cells) }
{
    let mut out = Vec::new(alloc);
    for i in 0..cells {
        push_slot(&mut out, i)?;
    }
    Ok(out)
}

fn is_seen(seen: &SlotList, marks: &[bool], slot: Slot) -> bool
    ensures { result ≡ ((seen.now ∋ slot) || has_mark marks.now slot) }
{
    seen.holds(slot) || is_marked_at(marks, slot)
}

fn push_if_seen(
    out: &mut Vec<Slot>,
    seen: &SlotList,
    marks: &[bool],
    number: usize,
) -> Result<(), AllocError>
    requires { number < 2 ^ 32 }
    ensures { OnOk result (out.new.items ≡ out.old.items
        ++ cond ((seen.now ∋ number) || has_mark marks.now number) (number ∷ []) []) }
{
    if is_seen(seen, marks, Slot::new(number as u32)) {
        push_slot(out, number)?;
    }
    Ok(())
}

fn seen_or_marked(
    alloc: Global,
    seen: &SlotList,
    marks: &[bool],
    cells: usize,
) -> Result<Vec<Slot>, AllocError>
    requires { cells ≤ 2 ^ 32 }
    ensures { IfOk result (λ v. v.items ≡ filter (λ s. (seen.now ∋ s) || has_mark marks.now s) (up_to 0 cells)) }
{
    let mut out = Vec::new(alloc);
    for i in 0..cells {
        push_if_seen(&mut out, seen, marks, i)?;
    }
    Ok(out)
}

/// A list of all slots of so many cells.
fn every_slot(alloc: Global, cells: usize) -> Result<SlotList, AllocError>
    requires { cells ≤ 2 ^ 32 }
    ensures { IfOk result (λ l. l ≡ up_to 0 cells) }
{
    let slots = all_slots(alloc, cells)?;
    SlotList::from_vec(alloc, cells, slots)
}

/// The marks of what the roots now reach strongly or softly.
fn marks_of_roots(alloc: Global, machine: &Machine) -> Result<Vec<bool>, AllocError>
    requires cells { length machine.now.objects ≤ 2 ^ 32 }
    requires within { IsWithinHeap machine.now.objects (roots machine.now) }
    ensures { IfOk result (λ m. (s : ℕ) → has_mark m.items s ≡
        (reach_set UpToSoft machine.now.objects (roots machine.now) ∋ s)) }
{
    let cells = machine.objects.len();
    let slots = every_slot(alloc, cells)?;
    let base = roots_plain(alloc, machine)?;
    let mut marks = unmarked(alloc, cells)?;
    mark_reached(
        alloc,
        &machine.objects,
        base.as_slice(),
        &slots,
        &mut marks,
        true,
    )?;
    Ok(marks)
}

/// What was seen, with what the roots now reach strongly or softly.
fn seen_in_cycle(alloc: Global, machine: &Machine) -> Result<Vec<Slot>, AllocError>
    requires cells { length machine.now.objects ≤ 2 ^ 32 }
    requires within { IsWithinHeap machine.now.objects (roots machine.now) }
    ensures { IfOk result (λ v. v.items ≡ seen_with machine.now.seen
        (reach_set UpToSoft machine.now.objects (roots machine.now)) (length machine.now.objects)) }
{
    let seen = listed(alloc, &machine.objects, machine.seen.as_slice())?;
    let marks = marks_of_roots(alloc, machine)?;
    seen_or_marked(alloc, &seen, marks.as_slice(), machine.objects.len())
}

/// The same in an open cycle; nothing outside a cycle.
pub fn seen_plain(alloc: Global, machine: &Machine) -> Result<Vec<Slot>, AllocError>
    requires cells { length machine.now.objects ≤ 2 ^ 32 }
    requires within { IsWithinHeap machine.now.objects (roots machine.now) }
    ensures { IfOk result (λ v. v.items ≡ now_seen machine.now) }
{
    if !machine.cycle_open {
        return Ok(Vec::new(alloc));
    }
    seen_in_cycle(alloc, machine)
}

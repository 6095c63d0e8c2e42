//! Whether an entry is legal in a machine.
ghost use Rattle.std.specs.Prelude.{◌≡◌, ◌≤◌, ◌^◌, ◌↔◌, ◌&&◌, ◌||◌, not, nat_lt, is_none, IsTrue, IfOk, length};
ghost use Rattle.jlr_types.specs.declared.Refusal.TheVariants.{NoMemory};
ghost use Rattle.jlr_machine.specs.declared.ask.Answer.TheVariants.{Refused};
ghost use Rattle.jlr_machine.specs.Lookups.{resource_at};
ghost use Rattle.jlr_machine.specs.Refusals.{is_end, cells_needed, refusal};
ghost use Rattle.jlr_laws.specs.Same.{same_answer};
ghost use Rattle.jlr_machine.specs.Objects.{some_and};
ghost use Rattle.jlr_machine.specs.Edges.{roots};
ghost use Rattle.jlr_machine.specs.Run.{IsLegal, with_collection};
ghost use Rattle.jlr_machine.specs.WellFormed.{IsWellFormed};
ghost use Rattle.jlr_laws.specs.Laws.{IsWithinHeap};
ghost use Rattle.jlr_laws.specs.Deciding.{gives_new_rid, is_answer, chooses_nothing, is_carried_out};
ghost use Rattle.jlr_laws.specs.Deciding.{is_rightly_refused};
ghost use Rattle.jlr_laws.specs.Deciding.{leaves_too_few, is_heap_full, is_empty, may_have_collected, are_fresh};
ghost use Rattle.jlr_plain.specs.Deciding.{declines, fits_after};

use crate::collecting::{clears_for_room, may_collect_plain};
use crate::room::fresh_slots;
use jlr_machine::ask::{Answer, Ask};
use jlr_machine::entry::{Chosen, Collected, Entry};
use jlr_machine::machine::Machine;
use jlr_plain_asks::answers::answers::{is_refused_by, is_truth};
use jlr_plain_asks::answers::replies::is_reply;
use jlr_plain_asks::lookups::resource_with;
use jlr_plain_asks::refusals::refusal_plain;
use jlr_plain_collections::left::collected_plain;
use jlr_types::{Refusal, Rid, Slot};
use std::alloc::{AllocError, Global};

/// Whether no resource has this Rid.
fn is_new_rid(machine: &Machine, rid: Rid) -> bool
    ensures { result ≡ (nat_lt rid (2 ^ 32) && is_none (resource_at machine.now rid)) }
{
    let _number = rid.number();
    resource_with(machine, rid).is_none()
}

/// Whether it gives a Rid that no resource has.
fn gives_rid(machine: &Machine, answer: &Answer) -> bool
    ensures { result ≡ gives_new_rid machine.now answer.now }
{
    match answer {
        Answer::Prepared(rid) => is_new_rid(machine, *rid),
        _ => false,
    }
}

/// Whether the ask, carried out after this collection, may be so answered.
fn answered(machine: &Machine, ask: &Ask, choice: &Chosen, answer: &Answer) -> bool
    ensures { result ≡ is_answer machine.now ask.now choice.now.collected answer.now }
{
    match ask {
        Ask::Prepare { .. } => gives_rid(machine, answer),
        Ask::Collect => is_truth(answer, choice.collected().is_some()),
        _ => is_reply(machine, ask, answer),
    }
}

fn none_of(slots: &[Slot]) -> bool
    ensures { result ≡ is_empty slots.now }
{
    slots.is_empty()
}

fn chooses_none(choice: &Chosen) -> bool
    ensures { result ≡ chooses_nothing choice.now }
{
    choice.collected().is_none() && none_of(choice.fresh().as_slice())
}

fn is_refused_plain(machine: &Machine, entry: &Entry) -> bool
    ensures { result ≡ is_rightly_refused machine.now entry.now }
{
    match refusal_plain(machine, &entry.ask) {
        Some(by) => is_refused_by(&entry.answer, by) && chooses_none(&entry.choice),
        None => false,
    }
}

fn is_out_of_memory_plain(entry: &Entry) -> bool
    ensures { result ≡ (not (is_end entry.now.ask) && same_answer entry.now.answer (Refused NoMemory)
        && chooses_nothing entry.now.choice) }
{
    !entry.ask.is_end()
        && is_refused_by(&entry.answer, Refusal::NoMemory)
        && chooses_none(&entry.choice)
}

/// Whether nothing refuses the ask, and it may come with its collection.
pub(crate) fn may_carry_out(
    alloc: Global,
    machine: &Machine,
    entry: &Entry,
) -> Result<bool, AllocError>
    requires cells { length machine.now.objects ≤ 2 ^ 32 }
    requires within { IsWithinHeap machine.now.objects (roots machine.now) }
    ensures { IfOk result (λ b. b ≡ (is_none (refusal machine.now entry.now.ask)
        && may_have_collected machine.now entry.now.ask entry.now.choice.collected)) }
{
    if refusal_plain(machine, &entry.ask).is_some() {
        return Ok(false);
    }
    may_collect_plain(alloc, machine, &entry.ask, &entry.choice)
}

/// Whether the ask may be so carried out, in the machine that its collection left.
pub(crate) fn fits_in(machine: &Machine, entry: &Entry) -> bool
    ensures { result ≡ (are_fresh machine.now.objects (cells_needed entry.now.ask) entry.now.choice.fresh
        && is_answer machine.now entry.now.ask entry.now.choice.collected entry.now.answer) }
{
    let choice = &entry.choice;
    let cells = entry.ask.cells() as usize;
    fresh_slots(&machine.objects, cells, choice.fresh().as_slice())
        && answered(machine, &entry.ask, choice, &entry.answer)
}

/// The same before the collection, of which a copy is made, where there is one.
fn fits_behind(alloc: Global, machine: &Machine, entry: &Entry) -> Result<bool, AllocError>
    ensures { IfOk result (λ b. b ≡ fits_after entry.now (with_collection machine.now entry.now.choice.collected)) }
{
    if entry.choice.collected().is_none() {
        return Ok(fits_in(machine, entry));
    }
    let next = collected_plain(alloc, machine, &entry.choice)?;
    Ok(fits_in(&next, entry))
}

fn is_carried_out_plain(alloc: Global, machine: &Machine, entry: &Entry) -> Result<bool, AllocError>
    requires cells { length machine.now.objects ≤ 2 ^ 32 }
    requires within { IsWithinHeap machine.now.objects (roots machine.now) }
    ensures { IfOk result (λ b. b ≡ is_carried_out machine.now entry.now) }
{
    if !may_carry_out(alloc, machine, entry)? {
        return Ok(false);
    }
    fits_behind(alloc, machine, entry)
}

/// Whether it is a full collection that clears all soft references and leaves too few cells.
fn too_few_left(
    alloc: Global,
    machine: &Machine,
    ask: &Ask,
    c: &Collected,
) -> Result<bool, AllocError>
    requires cells { length machine.now.objects ≤ 2 ^ 32 }
    requires within { IsWithinHeap machine.now.objects (roots machine.now) }
    ensures { IfOk result (λ b. b ≡ leaves_too_few machine.now ask.now c.now) }
{
    let needed = ask.cells() as usize;
    if !clears_for_room(alloc, machine, needed, c)? {
        return Ok(false);
    }
    let kept = c.kept.to_vec(alloc)?;
    Ok(machine.objects.len() < kept.as_slice().len() + needed)
}

fn collects_in_vain(
    alloc: Global,
    machine: &Machine,
    ask: &Ask,
    choice: &Chosen,
) -> Result<bool, AllocError>
    requires cells { length machine.now.objects ≤ 2 ^ 32 }
    requires within { IsWithinHeap machine.now.objects (roots machine.now) }
    ensures { IfOk result (λ b. b ≡ some_and (leaves_too_few machine.now ask.now) choice.now.collected) }
{
    match choice.collected() {
        Some(c) => too_few_left(alloc, machine, ask, c),
        None => Ok(false),
    }
}

fn is_heap_full_plain(alloc: Global, machine: &Machine, entry: &Entry) -> Result<bool, AllocError>
    requires cells { length machine.now.objects ≤ 2 ^ 32 }
    requires within { IsWithinHeap machine.now.objects (roots machine.now) }
    ensures { IfOk result (λ b. b ≡ is_heap_full machine.now entry.now) }
{
    if refusal_plain(machine, &entry.ask).is_some() {
        return Ok(false);
    }
    if !is_refused_by(&entry.answer, Refusal::HeapFull) {
        return Ok(false);
    }
    if !none_of(entry.choice.fresh().as_slice()) {
        return Ok(false);
    }
    collects_in_vain(alloc, machine, &entry.ask, &entry.choice)
}

/// Whether it is a legal entry of an ask that is not carried out.
pub(crate) fn is_declined(
    alloc: Global,
    machine: &Machine,
    entry: &Entry,
) -> Result<bool, AllocError>
    requires cells { length machine.now.objects ≤ 2 ^ 32 }
    requires within { IsWithinHeap machine.now.objects (roots machine.now) }
    ensures { IfOk result (λ b. b ≡ declines machine.now entry.now) }
{
    if is_refused_plain(machine, entry) {
        return Ok(true);
    }
    if is_heap_full_plain(alloc, machine, entry)? {
        return Ok(true);
    }
    Ok(is_out_of_memory_plain(entry))
}

fn legal_tested(alloc: Global, machine: &Machine, entry: &Entry) -> Result<bool, AllocError>
    requires cells { length machine.now.objects ≤ 2 ^ 32 }
    requires within { IsWithinHeap machine.now.objects (roots machine.now) }
    ensures { IfOk result (λ b. b ≡ (is_carried_out machine.now entry.now || declines machine.now entry.now)) }
{
    if is_carried_out_plain(alloc, machine, entry)? {
        return Ok(true);
    }
    is_declined(alloc, machine, entry)
}

/// Whether an entry is legal in a well-formed machine.
///
/// # Errors
/// `AllocError` where there is no memory.
pub fn legal_plain(alloc: Global, machine: &Machine, entry: &Entry) -> Result<bool, AllocError>
    requires { IsWellFormed machine.now }
    ensures { IfOk result (λ b. IsTrue b ↔ IsLegal machine.now entry.now) }
{
    legal_tested(alloc, machine, entry)
}

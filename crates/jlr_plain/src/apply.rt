//! The machine after a legal entry.
ghost use Rattle.std.specs.Prelude.{◌≡◌, ◌≤◌, ◌^◌, true, false, length, IfOk, OnOk, OnErr};
ghost use Rattle.jlr_machine.specs.Edges.{roots};
ghost use Rattle.jlr_machine.specs.Run.{IsLegal, carried, done, now_seen, apply};
ghost use Rattle.jlr_machine.specs.WellFormed.{IsWellFormed};
ghost use Rattle.jlr_laws.specs.Laws.{IsWithinHeap};
ghost use Rattle.jlr_plain.specs.Deciding.{carried_in, completed};
ghost use Rattle.jlr_plain_asks.specs.Counts.{HaveRoom, HasNextAction};
ghost use Rattle.jlr_machine.specs.Refusals.{is_refusal};

use crate::following::is_refusal;
use jlr_machine::ask::{Answer, Ask};
use jlr_machine::copies::copy_machine;
use jlr_machine::entry::Entry;
use jlr_machine::items::Items;
use jlr_machine::machine::Machine;
use jlr_plain_asks::changes::after::after_plain;
use jlr_plain_collections::left::collect_in;
use jlr_plain_collections::seen::seen_plain;
use jlr_types::Slot;
use std::alloc::{AllocError, Global};
use std::mem::replace;

/// A refused ask changes nothing.
fn carry_out(
    alloc: Global,
    machine: Machine,
    ask: &Ask,
    answer: &Answer,
    fresh: &[Slot],
) -> Result<Machine, AllocError>
    requires counts { HaveRoom machine }
    requires actions { is_refusal answer.now ≡ false → HasNextAction machine.next_action ask.now }
    ensures { IfOk result (λ n. n ≡ carried machine ask.now answer.now fresh.now) }
{
    if is_refusal(answer) {
        return Ok(machine);
    }
    let mut next = machine;
    if after_plain(alloc, &mut next, ask, answer, fresh).is_err() {
        drop(next);
        return Err(AllocError);
    }
    Ok(next)
}

/// The machine after an entry, made of the one that its collection left. What was seen is left as it is where it is
/// known to be kept.
pub(crate) fn complete(
    alloc: Global,
    machine: Machine,
    entry: &Entry,
    kept: bool,
) -> Result<Machine, AllocError>
    requires counts { HaveRoom machine }
    requires actions { is_refusal entry.now.answer ≡ false → HasNextAction machine.next_action entry.now.ask }
    requires cells { length (carried_in machine entry.now).objects ≤ 2 ^ 32 }
    requires within { IsWithinHeap (carried_in machine entry.now).objects (roots (carried_in machine entry.now)) }
    requires kept { kept ≡ true → now_seen (carried_in machine entry.now) ≡ (carried_in machine entry.now).seen }
    ensures { IfOk result (λ n. n ≡ completed machine entry.now) }
{
    let mut next = carry_out(
        alloc,
        machine,
        &entry.ask,
        &entry.answer,
        entry.choice.fresh().as_slice(),
    )?;
    if kept {
        return Ok(next);
    }
    let seen = seen_plain(alloc, &next)?;
    next.seen = Items::from_vec(seen);
    Ok(next)
}

/// The machine after a legal entry. It is given up for it.
pub(crate) fn applied(
    alloc: Global,
    machine: Machine,
    entry: &Entry,
    kept: bool,
) -> Result<Machine, AllocError>
    requires formed { IsWellFormed machine }
    requires legal { IsLegal machine entry.now }
    requires kept { kept ≡ true → now_seen (done machine entry.now) ≡ (done machine entry.now).seen }
    ensures { IfOk result (λ n. n ≡ apply machine entry.now) }
{
    let _next_action = machine.next_action;
    let collected = collect_in(alloc, machine, &entry.choice)?;
    let next = complete(alloc, collected, entry, kept)?;
    Ok(next)
}

/// Applies an entry that is legal in a well-formed machine.
///
/// # Errors
/// `AllocError` where there is no memory. The machine is then as it was.
pub fn apply_plain(alloc: Global, machine: &mut Machine, entry: &Entry) -> Result<(), AllocError>
    requires formed { IsWellFormed machine.old }
    requires legal { IsLegal machine.old entry.now }
    ensures ok { OnOk result (machine.new ≡ apply machine.old entry.now) }
    ensures err { OnErr result (machine.new ≡ machine.old) }
{
    let copy = copy_machine(alloc, machine)?;
    let next = applied(alloc, copy, entry, false)?;
    drop(replace(machine, next));
    Ok(())
}

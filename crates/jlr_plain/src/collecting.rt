//! Which collection an ask may come with.
ghost use Rattle.std.specs.Prelude.{◌≡◌, ◌≤◌, ◌^◌, ◌&&◌, not, None, Some, IfOk, length};
ghost use Rattle.jlr_machine.specs.declared.ask.Ask.TheVariants.{Full, Collect};
ghost use Rattle.jlr_machine.specs.Edges.{roots};
ghost use Rattle.jlr_machine.specs.Run.{has_room};
ghost use Rattle.jlr_laws.specs.Laws.{IsWithinHeap};
ghost use Rattle.jlr_laws.specs.Deciding.{is_full_clearing, may_have_collected};

use crate::room::room_for;
use jlr_machine::ask::{Ask, FullMode};
use jlr_machine::entry::{Chosen, Collected};
use jlr_machine::machine::Machine;
use jlr_plain_collections::legal::{background_tested, clearing_tested, full_tested};
use jlr_types::Mutator;
use std::alloc::{AllocError, Global};

fn full_allowed(
    alloc: Global,
    machine: &Machine,
    mutator: Mutator,
    mode: FullMode,
    c: &Collected,
) -> Result<bool, AllocError>
    requires cells { length machine.now.objects ≤ 2 ^ 32 }
    requires within { IsWithinHeap machine.now.objects (roots machine.now) }
    ensures { IfOk result (λ b. b ≡ may_have_collected machine.now (Full mutator mode) (Some c.now)) }
{
    match mode {
        FullMode::Policy => full_tested(alloc, machine, c),
        FullMode::ClearAll => clearing_tested(alloc, machine, c),
    }
}

fn background_allowed(alloc: Global, machine: &Machine, c: &Collected) -> Result<bool, AllocError>
    requires { length machine.now.objects ≤ 2 ^ 32 }
    ensures { IfOk result (λ b. b ≡ may_have_collected machine.now Collect (Some c.now)) }
{
    if !machine.cycle_open {
        return Ok(false);
    }
    background_tested(alloc, machine, c)
}

/// Whether there is no room, and it is a full collection that clears all soft references.
pub(crate) fn clears_for_room(
    alloc: Global,
    machine: &Machine,
    needed: usize,
    c: &Collected,
) -> Result<bool, AllocError>
    requires cells { length machine.now.objects ≤ 2 ^ 32 }
    requires within { IsWithinHeap machine.now.objects (roots machine.now) }
    requires needed { needed ≤ 2 }
    ensures { IfOk result (λ b. b ≡ (not (has_room machine.now needed)
        && is_full_clearing machine.now c.now.kept c.now.pending)) }
{
    if room_for(machine, needed) {
        return Ok(false);
    }
    clearing_tested(alloc, machine, c)
}

fn may_do(alloc: Global, machine: &Machine, ask: &Ask, c: &Collected) -> Result<bool, AllocError>
    requires cells { length machine.now.objects ≤ 2 ^ 32 }
    requires within { IsWithinHeap machine.now.objects (roots machine.now) }
    ensures { IfOk result (λ b. b ≡ may_have_collected machine.now ask.now (Some c.now)) }
{
    match ask {
        Ask::Full { mutator, mode } => full_allowed(alloc, machine, *mutator, *mode, c),
        Ask::Collect => background_allowed(alloc, machine, c),
        _ => clears_for_room(alloc, machine, ask.cells() as usize, c),
    }
}

fn may_do_without(machine: &Machine, ask: &Ask) -> bool
    ensures { result ≡ may_have_collected machine.now ask.now None }
{
    match ask {
        Ask::Full { .. } => false,
        Ask::Collect => true,
        _ => room_for(machine, ask.cells() as usize),
    }
}

/// Whether the ask may come with this collection, or with none.
pub fn may_collect_plain(
    alloc: Global,
    machine: &Machine,
    ask: &Ask,
    choice: &Chosen,
) -> Result<bool, AllocError>
    requires cells { length machine.now.objects ≤ 2 ^ 32 }
    requires within { IsWithinHeap machine.now.objects (roots machine.now) }
    ensures { IfOk result (λ b. b ≡ may_have_collected machine.now ask.now choice.now.collected) }
{
    match choice.collected() {
        Some(c) => may_do(alloc, machine, ask, c),
        None => Ok(may_do_without(machine, ask)),
    }
}

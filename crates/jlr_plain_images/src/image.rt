//! Whether a machine is well formed, and whether it may be the image at the head of a trace.
ghost use Rattle.std.specs.Prelude.{◌≡◌, ◌↔◌, ◌||◌, IsTrue, nat_lt, length};
ghost use Rattle.std.specs.List.{list_all};
ghost use Rattle.jlr_machine.specs.WellFormed.{IsWellFormed, IsImage};
ghost use Rattle.jlr_laws.specs.Deciding.{is_empty};
ghost use Rattle.jlr_plain_images.specs.Places.{rising_by};
ghost use Rattle.jlr_plain_images.specs.Images.{own_number, seen_fits, rest_fits, IsRestFit};

use crate::calls::are_calls;
use crate::parts::actions::are_actions;
use crate::parts::limits::is_within_limits;
use crate::parts::lists::are_lists;
use crate::parts::references::are_references;
use crate::parts::sessions::are_sessions;
use crate::parts::slots::are_slots_named;
use crate::resources::are_resources;
use crate::unnamed::are_private;
use jlr_machine::machine::Machine;
use jlr_types::Slot;

fn all_later(slot: Slot, slots: &[Slot]) -> bool
    ensures { result ≡ list_all (λ other. nat_lt slot other) slots.now }
{
    slots.iter().all(|other| slot.number() < other.number())
}

fn slots_rise(slots: &[Slot]) -> bool
    ensures { result ≡ rising_by own_number slots.now }
{
    let mut i: usize = 0;
    while i < slots.len() {
        if !all_later(slots[i], &slots[i + 1..]) {
            return false;
        }
        i += 1;
    }
    true
}

fn is_cell(machine: &Machine, slot: Slot) -> bool
    ensures { result ≡ nat_lt slot (length machine.now.objects) }
{
    (slot.number() as usize) < machine.objects.len()
}

fn all_cells(machine: &Machine, slots: &[Slot]) -> bool
    ensures { result ≡ list_all (λ s. nat_lt s (length machine.now.objects)) slots.now }
{
    slots.iter().all(|&slot| is_cell(machine, slot))
}

fn nothing_seen_outside(machine: &Machine) -> bool
    ensures { result ≡ (machine.now.cycle_open || is_empty machine.now.seen) }
{
    machine.cycle_open || machine.seen.as_slice().is_empty()
}

fn seen_tested(machine: &Machine) -> bool
    ensures { result ≡ seen_fits machine.now }
{
    let seen = machine.seen.as_slice();
    slots_rise(seen) && all_cells(machine, seen) && nothing_seen_outside(machine)
}

fn rest_tested(machine: &Machine) -> bool
    ensures { result ≡ rest_fits machine.now }
{
    machine.faults.len() <= 256 && machine.notes.len() <= 256 && seen_tested(machine)
}

/// Whether the faults and the notes are within their limits, and what was seen is a set of slots, empty outside a
/// cycle.
#[tactic(auto, using(crate::proofs::ImagesDecided::rest_decided))]
fn is_rest_fit(machine: &Machine) -> bool
    ensures { IsTrue result ↔ IsRestFit machine.now }
{
    rest_tested(machine)
}

/// Whether a machine is well formed.
pub fn well_formed_plain(machine: &Machine) -> bool
    ensures { IsTrue result ↔ IsWellFormed machine.now }
{
    is_within_limits(machine)
        && are_slots_named(machine)
        && are_references(machine)
        && are_lists(machine)
        && are_sessions(machine)
        && are_actions(machine)
        && are_resources(machine)
        && are_calls(machine)
        && are_private(machine)
        && is_rest_fit(machine)
}

/// Whether a machine may be the image at the head of a trace: well formed, and no cycle open.
pub fn image_plain(machine: &Machine) -> bool
    ensures { IsTrue result ↔ IsImage machine.now }
{
    !machine.cycle_open && well_formed_plain(machine)
}

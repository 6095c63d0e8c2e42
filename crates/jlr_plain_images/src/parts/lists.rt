//! The pending list and the cleaner's line.
ghost use Rattle.std.specs.Prelude.{◌≡◌, ◌↔◌, IsTrue};
ghost use Rattle.jlr_machine.specs.Objects.{at, some_and};
ghost use Rattle.jlr_machine.specs.WellFormed.{AreLists};
ghost use Rattle.jlr_plain_images.specs.Lists.{must_pend, may_pend, must_line_up, may_line_up, all_pend, all_line_up};
ghost use Rattle.jlr_plain_images.specs.Lists.{pending_may_pend, line_may_line_up, lists_fit};

use jlr_machine::machine::Machine;
use jlr_machine::object::{CleanState, Object, RefState};
use jlr_plain_asks::lookups::object_at;
use jlr_plain_collections::collection::{distinct, has_number};
use jlr_types::Slot;

/// Whether it has to be in the pending list.
fn has_to_pend(object: &Object) -> bool
    ensures { result ≡ must_pend object.now }
{
    match object {
        Object::Reference(r) => matches!(r.state, RefState::Pending),
        Object::Cleanable(c) => matches!(c.state, CleanState::Pending),
        _ => false,
    }
}

/// Whether it may be in the pending list.
fn can_pend(object: &Object) -> bool
    ensures { result ≡ may_pend object.now }
{
    match object {
        Object::Reference(r) => !matches!(r.state, RefState::Fresh),
        Object::Cleanable(c) => matches!(c.state, CleanState::Pending | CleanState::Spent),
        _ => false,
    }
}

/// Whether it has to be in the line.
fn has_to_line_up(object: &Object) -> bool
    ensures { result ≡ must_line_up object.now }
{
    match object {
        Object::Cleanable(c) => matches!(c.state, CleanState::Lined),
        _ => false,
    }
}

/// Whether it may be in the line.
fn can_line_up(object: &Object) -> bool
    ensures { result ≡ may_line_up object.now }
{
    match object {
        Object::Cleanable(c) => matches!(c.state, CleanState::Lined | CleanState::Spent),
        _ => false,
    }
}

fn must_pend_at(machine: &Machine, slot: usize) -> bool
    ensures { result ≡ some_and must_pend (at machine.now.objects slot) }
{
    machine
        .objects
        .get(slot)
        .is_some_and(|object| has_to_pend(object))
}

fn must_line_up_at(machine: &Machine, slot: usize) -> bool
    ensures { result ≡ some_and must_line_up (at machine.now.objects slot) }
{
    machine
        .objects
        .get(slot)
        .is_some_and(|object| has_to_line_up(object))
}

fn may_pend_at(machine: &Machine, slot: Slot) -> bool
    ensures { result ≡ some_and may_pend (at machine.now.objects slot) }
{
    object_at(machine, slot).is_some_and(|object| can_pend(object))
}

fn may_line_up_at(machine: &Machine, slot: Slot) -> bool
    ensures { result ≡ some_and may_line_up (at machine.now.objects slot) }
{
    object_at(machine, slot).is_some_and(|object| can_line_up(object))
}

fn all_are_pending(machine: &Machine) -> bool
    ensures { result ≡ all_pend machine.now }
{
    let pending = machine.pending.as_slice();
    (0..machine.objects.len()).all(|slot| !must_pend_at(machine, slot) || has_number(pending, slot))
}

fn all_are_lined(machine: &Machine) -> bool
    ensures { result ≡ all_line_up machine.now }
{
    let line = machine.line.as_slice();
    (0..machine.objects.len()).all(|slot| !must_line_up_at(machine, slot) || has_number(line, slot))
}

fn pending_belong(machine: &Machine) -> bool
    ensures { result ≡ pending_may_pend machine.now }
{
    let mut pending = machine.pending.as_slice().iter();
    pending.all(|&slot| may_pend_at(machine, slot))
}

fn line_belongs(machine: &Machine) -> bool
    ensures { result ≡ line_may_line_up machine.now }
{
    let mut line = machine.line.as_slice().iter();
    line.all(|&slot| may_line_up_at(machine, slot))
}

fn lists_tested(machine: &Machine) -> bool
    ensures { result ≡ lists_fit machine.now }
{
    distinct(machine.pending.as_slice())
        && distinct(machine.line.as_slice())
        && all_are_pending(machine)
        && pending_belong(machine)
        && all_are_lined(machine)
        && line_belongs(machine)
}

/// Whether the pending list and the line hold, once each, what has to wait there, and beside that only what no longer
/// has to.
#[tactic(auto, using(crate::proofs::ListsDecided::lists_decided))]
pub fn are_lists(machine: &Machine) -> bool
    ensures { IsTrue result ↔ AreLists machine.now }
{
    lists_tested(machine)
}

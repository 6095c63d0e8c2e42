//! What the handler and the cleaner do with the front of their lists.
ghost use Rattle.std.specs.Prelude.{◌≡◌};
ghost use Rattle.jlr_machine.specs.Objects.{is_lined, some_and};
ghost use Rattle.jlr_machine.specs.Lookups.{cleanable_at};
ghost use Rattle.jlr_machine.specs.Calls.{handed_reference, handed_cleanable, handed, from_lined};

use crate::lookups::cleanable_in;
use jlr_machine::ask::Handed;
use jlr_machine::machine::Machine;
use jlr_machine::object::{CleanState, Object, RefState};
use jlr_types::Slot;

fn step_for_reference(state: RefState) -> Handed
    ensures { result ≡ handed_reference state }
{
    match state {
        RefState::Pending => Handed::Queued,
        RefState::Fresh => Handed::Skipped,
        RefState::Queued => Handed::Skipped,
        RefState::Removed => Handed::Skipped,
    }
}

fn step_for_cleanable(state: CleanState) -> Handed
    ensures { result ≡ handed_cleanable state }
{
    match state {
        CleanState::Pending => Handed::Lined,
        CleanState::Armed => Handed::Skipped,
        CleanState::Lined => Handed::Skipped,
        CleanState::Spent => Handed::Skipped,
    }
}

/// What the handler does with an object of the pending list.
pub(crate) fn step_for(object: &Object) -> Handed
    ensures { result ≡ handed object.now }
{
    match object {
        Object::Reference(reference) => step_for_reference(reference.state),
        Object::Cleanable(cleanable) => step_for_cleanable(cleanable.state),
        _ => Handed::Skipped,
    }
}

fn is_lined_state(state: CleanState) -> bool
    ensures { result ≡ is_lined state }
{
    match state {
        CleanState::Lined => true,
        CleanState::Armed => false,
        CleanState::Pending => false,
        CleanState::Spent => false,
    }
}

fn lined_at(machine: &Machine, slot: Slot) -> bool
    ensures { result ≡ some_and (λ c. is_lined c.state) (cleanable_at machine.now slot) }
{
    match cleanable_in(machine, slot) {
        Some(cleanable) => is_lined_state(cleanable.state),
        None => false,
    }
}

/// The line from its first Lined cleanable on.
pub(crate) fn line_from<'a>(machine: &Machine, slots: &'a [Slot]) -> &'a [Slot]
    ensures { result.now ≡ from_lined machine.now slots.now }
{
    for i in 0..slots.len() {
        if lined_at(machine, slots[i]) {
            return &slots[i..];
        }
    }
    &[]
}

//! The object already there that an ask gives a handle for.
ghost use Rattle.std.specs.Prelude.{◌≡◌, option_and_then};
ghost use Rattle.jlr_machine.specs.Edges.{slot_in};
ghost use Rattle.jlr_machine.specs.Lookups.{field_named, reference_named, members_named};
ghost use Rattle.jlr_machine.specs.Refusals.{front, gotten, given};

use crate::lookups::{
    bound_slot, named_field, named_members, named_reference, named_slot, referred,
};
use jlr_machine::ask::Ask;
use jlr_machine::machine::Machine;
use jlr_machine::object::Reference;
use jlr_types::{FieldNo, Handle, Mutator, RefKind, Slot};

/// What `get` gives: the referent, but never a phantom reference's.
fn referent_given(reference: &Reference) -> Option<Slot>
    ensures { result ≡ gotten reference.now }
{
    match reference.kind {
        RefKind::Phantom => None,
        RefKind::Soft => reference.referent,
        RefKind::Weak => reference.referent,
    }
}

fn first_of(slots: &[Slot]) -> Option<Slot>
    ensures { result ≡ front slots.now }
{
    slots.first().copied()
}

fn field_given(machine: &Machine, mutator: Mutator, object: Handle, field: FieldNo) -> Option<Slot>
    ensures { result ≡ option_and_then slot_in (field_named machine.now mutator object field) }
{
    match named_field(machine, mutator, object, field) {
        Some(value) => referred(&value),
        None => None,
    }
}

fn deref_given(machine: &Machine, mutator: Mutator, reference: Handle) -> Option<Slot>
    ensures { result ≡ option_and_then gotten (reference_named machine.now mutator reference) }
{
    match named_reference(machine, mutator, reference) {
        Some(reference) => referent_given(&reference),
        None => None,
    }
}

/// The front of the queue that a handle stands for.
pub(crate) fn front_given(machine: &Machine, mutator: Mutator, queue: Handle) -> Option<Slot>
    ensures { result ≡ option_and_then front (members_named machine.now mutator queue) }
{
    match named_members(machine, mutator, queue) {
        Some(members) => first_of(members.as_slice()),
        None => None,
    }
}

/// The object already there that an ask gives a handle for.
pub fn given_by(machine: &Machine, ask: &Ask) -> Option<Slot>
    ensures { result ≡ given machine.now ask.now }
{
    match ask {
        Ask::Get {
            mutator,
            object,
            field,
        } => field_given(machine, *mutator, *object, *field),
        Ask::Dup { mutator, object } => named_slot(machine, *mutator, *object),
        Ask::Deref { mutator, reference } => deref_given(machine, *mutator, *reference),
        Ask::Poll { mutator, queue } => front_given(machine, *mutator, *queue),
        Ask::Remove { mutator, queue } => front_given(machine, *mutator, *queue),
        Ask::Find { name, .. } => bound_slot(machine.names.as_slice(), name.as_slice()),
        _ => None,
    }
}

//! References and queues.
ghost use Rattle.std.specs.Prelude.{◌≡◌, ◌↔◌, IsTrue};
ghost use Rattle.std.specs.List.{list_all};
ghost use Rattle.jlr_machine.specs.Objects.{at, some_and};
ghost use Rattle.jlr_machine.specs.WellFormed.{AreReferences};
ghost use Rattle.jlr_plain_images.specs.References.{fits_own_state, states_fit, is_queued_object, members_fit};
ghost use Rattle.jlr_plain_images.specs.References.{queues_fit, queue_members, is_disjoint, shares_nothing};
ghost use Rattle.jlr_plain_images.specs.References.{queues_are_apart, references_fit};

use jlr_machine::machine::Machine;
use jlr_machine::object::{Object, RefState, Reference};
use jlr_plain_asks::lookups::object_at;
use jlr_plain_collections::collection::{distinct, holds};
use jlr_types::Slot;

/// Whether it has the queue and the referent that its state asks for.
fn state_fits(reference: &Reference) -> bool
    ensures { result ≡ fits_own_state reference.now }
{
    match reference.state {
        RefState::Fresh => true,
        RefState::Pending => reference.queue.is_some() && reference.referent.is_none(),
        RefState::Queued => reference.queue.is_none() && reference.referent.is_none(),
        RefState::Removed => reference.queue.is_none() && reference.referent.is_none(),
    }
}

fn states_are_kept(machine: &Machine) -> bool
    ensures { result ≡ states_fit machine.now.objects }
{
    let mut places = machine.objects.as_slice().iter();
    places.all(|place| match place {
        Some(Object::Reference(r)) => state_fits(r),
        _ => true,
    })
}

fn is_queued_reference(object: &Object) -> bool
    ensures { result ≡ is_queued_object object.now }
{
    match object {
        Object::Reference(r) => matches!(r.state, RefState::Queued),
        _ => false,
    }
}

fn queued_at(machine: &Machine, slot: Slot) -> bool
    ensures { result ≡ some_and is_queued_object (at machine.now.objects slot) }
{
    object_at(machine, slot).is_some_and(|object| is_queued_reference(object))
}

fn all_queued(machine: &Machine, members: &[Slot]) -> bool
    ensures { result ≡ list_all (λ s. some_and is_queued_object (at machine.now.objects s)) members.now }
{
    members.iter().all(|&slot| queued_at(machine, slot))
}

fn are_members(machine: &Machine, members: &[Slot]) -> bool
    ensures { result ≡ members_fit machine.now.objects members.now }
{
    all_queued(machine, members) && distinct(members)
}

fn members_are_queued(machine: &Machine) -> bool
    ensures { result ≡ queues_fit machine.now.objects }
{
    let mut places = machine.objects.as_slice().iter();
    places.all(|place| match place {
        Some(Object::Queue(members)) => are_members(machine, members.as_slice()),
        _ => true,
    })
}

/// The members of the queue there, if it is one.
fn members_at(machine: &Machine, slot: usize) -> &[Slot]
    ensures { result.now ≡ queue_members (at machine.now.objects slot) }
{
    match machine.objects.get(slot) {
        Some(Object::Queue(members)) => members.as_slice(),
        _ => &[],
    }
}

fn disjoint(left: &[Slot], right: &[Slot]) -> bool
    ensures { result ≡ is_disjoint left.now right.now }
{
    left.iter().all(|&slot| !holds(right, slot))
}

fn apart_from_others(machine: &Machine, queue: usize, members: &[Slot]) -> bool
    ensures { result ≡ shares_nothing machine.now.objects queue members.now }
{
    (0..machine.objects.len()).all(|other| queue == other
        || disjoint(members_at(machine, other), members))
}

fn queues_share_nothing(machine: &Machine) -> bool
    ensures { result ≡ queues_are_apart machine.now.objects }
{
    (0..machine.objects.len()).all(|queue| match machine.objects.get(queue) {
        Some(Object::Queue(members)) => apart_from_others(machine, queue, members.as_slice()),
        _ => true,
    })
}

fn references_tested(machine: &Machine) -> bool
    ensures { result ≡ references_fit machine.now }
{
    states_are_kept(machine) && members_are_queued(machine) && queues_share_nothing(machine)
}

/// Whether each reference has what its state says, and each queue has just Queued references as members, each of them
/// in no other queue.
#[tactic(auto, using(crate::proofs::ReferencesDecided::references_decided))]
pub fn are_references(machine: &Machine) -> bool
    ensures { IsTrue result ↔ AreReferences machine.now }
{
    references_tested(machine)
}

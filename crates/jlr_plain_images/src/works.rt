//! Works, and the resources that they are on.
ghost use Rattle.std.specs.Prelude.{◌≡◌};
ghost use Rattle.jlr_machine.specs.Objects.{some_and, is_armed};
ghost use Rattle.jlr_machine.specs.Lookups.{cleanable_at};
ghost use Rattle.jlr_plain_images.specs.Calls.{is_in_call};
ghost use Rattle.jlr_plain_images.specs.Resources.{is_on_resource, is_work_on, is_closing, is_idle, is_state};
ghost use Rattle.jlr_plain_images.specs.Resources.{fits_resource, has_resource};

use jlr_machine::machine::{Machine, Resource, ResourceState};
use jlr_machine::object::{CleanState, Cleanable};
use jlr_plain_asks::lookups::{cleanable_in, resource_with};
use jlr_types::{ActionNo, Rid, Slot, Work};

pub(crate) fn on_resource(work: Work) -> bool
    ensures { result ≡ is_on_resource work }
{
    match work {
        Work::Resource(_) => true,
        Work::Note(_) => false,
    }
}

pub(crate) fn works_on(rid: Rid, work: Work) -> bool
    ensures { result ≡ is_work_on rid work }
{
    match work {
        Work::Resource(other) => other.number() == rid.number(),
        Work::Note(_) => false,
    }
}

pub(crate) fn closing(state: ResourceState) -> bool
    ensures { result ≡ is_closing state }
{
    matches!(state, ResourceState::Closing)
}

pub(crate) fn idle(state: ResourceState) -> bool
    ensures { result ≡ is_idle state }
{
    matches!(state, ResourceState::Idle)
}

fn same_state(wanted: ResourceState, state: ResourceState) -> bool
    ensures { result ≡ is_state wanted state }
{
    match wanted {
        ResourceState::Opening => matches!(state, ResourceState::Opening),
        ResourceState::Idle => idle(state),
        ResourceState::Out => matches!(state, ResourceState::Out),
        ResourceState::Closing => closing(state),
    }
}

fn resource_fits(action: ActionNo, state: ResourceState, resource: &Resource) -> bool
    ensures { result ≡ fits_resource action state resource.now }
{
    resource.action.number() == action.number() && same_state(state, resource.state)
}

/// Whether the resource of this Rid has that action and is in that state.
pub(crate) fn resource_is(
    machine: &Machine,
    rid: Rid,
    action: ActionNo,
    state: ResourceState,
) -> bool
    ensures { result ≡ has_resource machine.now rid action state }
{
    match resource_with(machine, rid) {
        Some(resource) => resource_fits(action, state, &resource),
        None => false,
    }
}

pub(crate) fn armed(state: CleanState) -> bool
    ensures { result ≡ is_armed state }
{
    matches!(state, CleanState::Armed)
}

fn in_call(machine: &Machine, rid: Rid, state: ResourceState, cleanable: &Cleanable) -> bool
    ensures { result ≡ is_in_call machine.now rid state cleanable.now }
{
    armed(cleanable.state) && resource_is(machine, rid, cleanable.action, state)
}

/// Whether the cleanable there is Armed, and its resource in this state.
pub(crate) fn in_call_at(machine: &Machine, rid: Rid, state: ResourceState, slot: Slot) -> bool
    ensures { result ≡ some_and (is_in_call machine.now rid state) (cleanable_at machine.now slot) }
{
    match cleanable_in(machine, slot) {
        Some(cleanable) => in_call(machine, rid, state, &cleanable),
        None => false,
    }
}

//! Resources, and the guards, cleanables and jobs that they belong to.
ghost use Rattle.std.specs.Prelude.{◌≡◌, ◌↔◌, ◌||◌, ◌&&◌, IsTrue, nat_eq, nat_lt};
ghost use Rattle.std.specs.List.{list_all, list_any};
ghost use Rattle.jlr_machine.specs.Objects.{at, some_and, is_armed, is_spent};
ghost use Rattle.jlr_machine.specs.Lookups.{job_of, resource_at};
ghost use Rattle.jlr_machine.specs.WellFormed.{AreResources};
ghost use Rattle.jlr_plain_images.specs.Places.{none_or, on_cleanable, rising_by, is_only_key, keys_are_apart};
ghost use Rattle.jlr_plain_images.specs.Resources.{is_on_resource, is_work_on, is_worker, is_worked, all_are_worked};
ghost use Rattle.jlr_plain_images.specs.Resources.{serves, has_its_resource, closes_its_own, all_jobs_close};
ghost use Rattle.jlr_plain_images.specs.Resources.{guarded_slot, is_own, owns, all_guards_own, is_guard_of, is_guarded};
ghost use Rattle.jlr_plain_images.specs.Resources.{all_are_guarded, guards_fit, rid_in, resources_fit};

use crate::works::{armed, closing, idle, on_resource, resource_is, works_on};
use jlr_machine::machine::{Job, Machine, Resource, ResourceState};
use jlr_machine::object::{CleanState, Cleanable, Guard, Object};
use jlr_plain_asks::lookups::{cleanable_in, resource_with, running_job};
use jlr_types::{ActionNo, Rid, Slot, Work};

fn spent(state: CleanState) -> bool
    ensures { result ≡ is_spent state }
{
    matches!(state, CleanState::Spent)
}

fn all_above(resource: &Resource, resources: &[Resource]) -> bool
    ensures { result ≡ list_all (λ other. nat_lt resource.now.rid other.rid) resources.now }
{
    resources
        .iter()
        .all(|other| resource.rid.number() < other.rid.number())
}

fn rids_rise(resources: &[Resource]) -> bool
    ensures { result ≡ rising_by rid_in resources.now }
{
    let mut i: usize = 0;
    while i < resources.len() {
        if !all_above(&resources[i], &resources[i + 1..]) {
            return false;
        }
        i += 1;
    }
    true
}

/// Whether it is an unspent cleanable with this action and this work.
fn does_the_work(rid: Rid, action: ActionNo, object: &Object) -> bool
    ensures { result ≡ is_worker rid action object.now }
{
    match object {
        Object::Cleanable(c) => {
            !spent(c.state) && c.action.number() == action.number() && works_on(rid, c.work)
        }
        _ => false,
    }
}

fn cleanable_does_it(machine: &Machine, rid: Rid, action: ActionNo) -> bool
    ensures { result ≡ list_any (some_and (is_worker rid action)) machine.now.objects }
{
    let mut places = machine.objects.as_slice().iter();
    places.any(|place| match place {
        Some(object) => does_the_work(rid, action, object),
        None => false,
    })
}

fn job_does_it(machine: &Machine, rid: Rid, action: ActionNo) -> bool
    ensures { result ≡ some_and (λ job. is_work_on rid job.work) (job_of machine.now action) }
{
    match running_job(machine, action) {
        Some(job) => works_on(rid, job.work),
        None => false,
    }
}

fn worked(machine: &Machine, resource: &Resource) -> bool
    ensures { result ≡ is_worked machine.now resource.now }
{
    match resource.state {
        ResourceState::Closing => job_does_it(machine, resource.rid, resource.action),
        _ => cleanable_does_it(machine, resource.rid, resource.action),
    }
}

fn all_worked(machine: &Machine) -> bool
    ensures { result ≡ all_are_worked machine.now }
{
    let mut resources = machine.resources.as_slice().iter();
    resources.all(|other| match resource_with(machine, other.rid) {
        Some(resource) => worked(machine, &resource),
        None => true,
    })
}

fn serves_it(cleanable: &Cleanable, resource: &Resource) -> bool
    ensures { result ≡ serves cleanable.now resource.now }
{
    resource.action.number() == cleanable.action.number()
        && !closing(resource.state)
        && (armed(cleanable.state) || idle(resource.state))
}

fn served_by(machine: &Machine, cleanable: &Cleanable, rid: Rid) -> bool
    ensures { result ≡ (is_spent cleanable.now.state || some_and (serves cleanable.now) (resource_at machine.now rid)) }
{
    if spent(cleanable.state) {
        return true;
    }
    match resource_with(machine, rid) {
        Some(resource) => serves_it(cleanable, &resource),
        None => false,
    }
}

fn served(machine: &Machine, cleanable: &Cleanable) -> bool
    ensures { result ≡ has_its_resource machine.now cleanable.now }
{
    match cleanable.work {
        Work::Note(_) => true,
        Work::Resource(rid) => served_by(machine, cleanable, rid),
    }
}

fn all_served(machine: &Machine) -> bool
    ensures { result ≡ list_all (none_or (on_cleanable (has_its_resource machine.now))) machine.now.objects }
{
    let mut places = machine.objects.as_slice().iter();
    places.all(|place| match place {
        Some(Object::Cleanable(cleanable)) => served(machine, cleanable),
        _ => true,
    })
}

fn closes_own(machine: &Machine, job: &Job) -> bool
    ensures { result ≡ closes_its_own machine.now job.now }
{
    match job.work {
        Work::Note(_) => true,
        Work::Resource(rid) => resource_is(machine, rid, job.action, ResourceState::Closing),
    }
}

fn jobs_close(machine: &Machine) -> bool
    ensures { result ≡ all_jobs_close machine.now }
{
    let mut jobs = machine.jobs.as_slice().iter();
    jobs.all(|other| match running_job(machine, other.action) {
        Some(job) => closes_own(machine, &job),
        None => true,
    })
}

fn guarded_at(machine: &Machine, slot: usize) -> Option<Slot>
    ensures { result ≡ guarded_slot (at machine.now.objects slot) }
{
    match machine.objects.get(slot) {
        Some(Object::Guard(guard)) => Some(guard.cleanable),
        _ => None,
    }
}

fn is_at(slot: usize, other: Option<Slot>) -> bool
    ensures { result ≡ some_and (nat_eq slot) other }
{
    match other {
        Some(other) => slot == other.number() as usize,
        None => false,
    }
}

/// Whether no other guard has this cleanable.
fn guards_alone(machine: &Machine, slot: usize, cleanable: Slot) -> bool
    ensures { result ≡ is_only_key guarded_slot machine.now.objects slot cleanable }
{
    let number = cleanable.number() as usize;
    (0..machine.objects.len()).all(|other| slot == other
        || !is_at(number, guarded_at(machine, other)))
}

fn all_guard_alone(machine: &Machine) -> bool
    ensures { result ≡ keys_are_apart guarded_slot machine.now.objects }
{
    (0..machine.objects.len()).all(|slot| match guarded_at(machine, slot) {
        Some(cleanable) => guards_alone(machine, slot, cleanable),
        None => true,
    })
}

fn armed_for(slot: usize, guard: &Guard, cleanable: &Cleanable) -> bool
    ensures { result ≡ (is_armed cleanable.now.state && some_and (nat_eq slot) cleanable.now.referent
        && is_work_on guard.now.rid cleanable.now.work) }
{
    armed(cleanable.state) && is_at(slot, cleanable.referent) && works_on(guard.rid, cleanable.work)
}

fn own_cleanable(slot: usize, guard: &Guard, cleanable: &Cleanable) -> bool
    ensures { result ≡ is_own slot guard.now cleanable.now }
{
    spent(cleanable.state) || armed_for(slot, guard, cleanable)
}

fn guard_owns(machine: &Machine, slot: usize, guard: &Guard) -> bool
    ensures { result ≡ owns machine.now slot guard.now }
{
    match cleanable_in(machine, guard.cleanable) {
        Some(cleanable) => own_cleanable(slot, guard, &cleanable),
        None => true,
    }
}

fn guards_own(machine: &Machine) -> bool
    ensures { result ≡ all_guards_own machine.now }
{
    (0..machine.objects.len()).all(|slot| match machine.objects.get(slot) {
        Some(Object::Guard(guard)) => guard_owns(machine, slot, guard),
        _ => true,
    })
}

fn guard_of_slot(slot: usize, object: &Object) -> bool
    ensures { result ≡ is_guard_of slot object.now }
{
    match object {
        Object::Guard(guard) => guard.cleanable.number() as usize == slot,
        _ => false,
    }
}

fn has_a_guard(machine: &Machine, slot: usize) -> bool
    ensures { result ≡ list_any (some_and (is_guard_of slot)) machine.now.objects }
{
    let mut places = machine.objects.as_slice().iter();
    places.any(|place| match place {
        Some(object) => guard_of_slot(slot, object),
        None => false,
    })
}

fn needs_a_guard(cleanable: &Cleanable) -> bool
    ensures { result ≡ (is_armed cleanable.now.state && is_on_resource cleanable.now.work) }
{
    armed(cleanable.state) && on_resource(cleanable.work)
}

fn guarded(machine: &Machine, slot: usize, cleanable: &Cleanable) -> bool
    ensures { result ≡ is_guarded machine.now slot cleanable.now }
{
    !needs_a_guard(cleanable) || has_a_guard(machine, slot)
}

fn all_guarded(machine: &Machine) -> bool
    ensures { result ≡ all_are_guarded machine.now }
{
    (0..machine.objects.len()).all(|slot| match machine.objects.get(slot) {
        Some(Object::Cleanable(cleanable)) => guarded(machine, slot, cleanable),
        _ => true,
    })
}

fn guards_tested(machine: &Machine) -> bool
    ensures { result ≡ guards_fit machine.now }
{
    all_guard_alone(machine) && guards_own(machine) && all_guarded(machine)
}

fn resources_tested(machine: &Machine) -> bool
    ensures { result ≡ resources_fit machine.now }
{
    rids_rise(machine.resources.as_slice())
        && all_worked(machine)
        && all_served(machine)
        && jobs_close(machine)
        && guards_tested(machine)
}

/// Whether the Rids rise, each resource is the work of a cleanable or a job and each such work has its resource, and
/// each guard and the cleanable that it guards belong to each other.
#[tactic(auto, using(crate::proofs::ResourcesDecided::resources_decided))]
pub fn are_resources(machine: &Machine) -> bool
    ensures { IsTrue result ↔ AreResources machine.now }
{
    resources_tested(machine)
}

//! The calls of mutators, with their fences, resources and jobs.
ghost use Rattle.std.specs.Prelude.{◌≡◌, ◌↔◌, IsTrue, Some, nat_eq};
ghost use Rattle.jlr_machine.specs.Objects.{at, some_and};
ghost use Rattle.jlr_machine.specs.Lookups.{job_of};
ghost use Rattle.jlr_machine.specs.declared.machine.Call.TheVariants.{Opening as CallOpening, Out as CallOut};
ghost use Rattle.jlr_machine.specs.declared.machine.Call.TheVariants.{Job as CallJob};
ghost use Rattle.jlr_machine.specs.WellFormed.{AreCalls};
ghost use Rattle.jlr_plain_images.specs.Calls.{same_call, is_free_call, is_guard_in_call, is_fencing, fits_own_call};
ghost use Rattle.jlr_plain_images.specs.Calls.{all_fit_calls, is_calling, is_called, has_its_call, all_have_calls};
ghost use Rattle.jlr_plain_images.specs.Calls.{is_called_job, all_jobs_called, are_in_one_call, call_is_apart};
ghost use Rattle.jlr_plain_images.specs.Calls.{calls_are_apart, calls_fit};

use crate::works::in_call_at;
use jlr_machine::machine::{Call, Job, Machine, Resource, ResourceState, Session};
use jlr_machine::object::Object;
use jlr_plain_asks::lookups::{object_at, resource_with, running_job};
use jlr_types::{ActionNo, Rid, Slot};

fn free(call: Call) -> bool
    ensures { result ≡ is_free_call call }
{
    match call {
        Call::Free => true,
        _ => false,
    }
}

fn opens(call: Call, rid: Rid) -> bool
    ensures { result ≡ same_call call (CallOpening rid) }
{
    match call {
        Call::Opening(other) => other.number() == rid.number(),
        _ => false,
    }
}

fn has_out(call: Call, rid: Rid) -> bool
    ensures { result ≡ same_call call (CallOut rid) }
{
    match call {
        Call::Out(other) => other.number() == rid.number(),
        _ => false,
    }
}

fn runs(call: Call, action: ActionNo) -> bool
    ensures { result ≡ same_call call (CallJob action) }
{
    match call {
        Call::Job(other) => other.number() == action.number(),
        _ => false,
    }
}

fn calls_agree(left: Call, right: Call) -> bool
    ensures { result ≡ same_call left right }
{
    match right {
        Call::Free => free(left),
        Call::Opening(rid) => opens(left, rid),
        Call::Out(rid) => has_out(left, rid),
        Call::Job(action) => runs(left, action),
    }
}

fn guard_in_call(machine: &Machine, rid: Rid, state: ResourceState, object: &Object) -> bool
    ensures { result ≡ is_guard_in_call machine.now rid state object.now }
{
    match object {
        Object::Guard(guard) => {
            guard.rid.number() == rid.number() && in_call_at(machine, rid, state, guard.cleanable)
        }
        _ => false,
    }
}

fn guard_in_call_at(machine: &Machine, rid: Rid, state: ResourceState, slot: Slot) -> bool
    ensures { result ≡ some_and (is_guard_in_call machine.now rid state) (at machine.now.objects slot) }
{
    match object_at(machine, slot) {
        Some(object) => guard_in_call(machine, rid, state, object),
        None => false,
    }
}

fn fences(machine: &Machine, session: &Session, rid: Rid, state: ResourceState) -> bool
    ensures { result ≡ is_fencing machine.now session.now rid state }
{
    match session.fence {
        Some(slot) => guard_in_call_at(machine, rid, state, slot),
        None => false,
    }
}

fn job_of_mutator(machine: &Machine, action: ActionNo, mutator: usize) -> bool
    ensures { result ≡ some_and (λ job. nat_eq job.by mutator) (job_of machine.now action) }
{
    match running_job(machine, action) {
        Some(job) => job.by as usize == mutator,
        None => false,
    }
}

fn fits_its_call(machine: &Machine, mutator: usize, session: &Session) -> bool
    ensures { result ≡ fits_own_call machine.now mutator session.now }
{
    match session.call {
        Call::Free => session.fence.is_none(),
        Call::Opening(rid) => fences(machine, session, rid, ResourceState::Opening),
        Call::Out(rid) => fences(machine, session, rid, ResourceState::Out),
        Call::Job(action) => { session.fence.is_none() && job_of_mutator(machine, action, mutator) }
    }
}

fn all_fit(machine: &Machine) -> bool
    ensures { result ≡ all_fit_calls machine.now }
{
    (0..machine.mutators.len()).all(|mutator| match machine.mutators.get(mutator) {
        Some(session) => fits_its_call(machine, mutator, session),
        None => true,
    })
}

fn called(machine: &Machine, call: Call) -> bool
    ensures { result ≡ is_called machine.now call }
{
    let mut places = machine.mutators.as_slice().iter();
    places.any(|place| match place {
        Some(session) => calls_agree(session.call, call),
        None => false,
    })
}

fn called_if_in_use(machine: &Machine, resource: &Resource) -> bool
    ensures { result ≡ has_its_call machine.now resource.now }
{
    match resource.state {
        ResourceState::Opening => called(machine, Call::Opening(resource.rid)),
        ResourceState::Out => called(machine, Call::Out(resource.rid)),
        ResourceState::Idle => true,
        ResourceState::Closing => true,
    }
}

fn all_called(machine: &Machine) -> bool
    ensures { result ≡ all_have_calls machine.now }
{
    let mut resources = machine.resources.as_slice().iter();
    resources.all(|other| match resource_with(machine, other.rid) {
        Some(resource) => called_if_in_use(machine, &resource),
        None => true,
    })
}

fn call_of_its_mutator(machine: &Machine, job: &Job) -> bool
    ensures { result ≡ some_and (is_calling (CallJob job.now.action)) (at machine.now.mutators job.now.by) }
{
    match machine.mutators.get(job.by as usize) {
        Some(session) => calls_agree(session.call, Call::Job(job.action)),
        None => false,
    }
}

fn called_job(machine: &Machine, job: &Job) -> bool
    ensures { result ≡ is_called_job machine.now job.now }
{
    job.by == 255 || call_of_its_mutator(machine, job)
}

fn jobs_called(machine: &Machine) -> bool
    ensures { result ≡ all_jobs_called machine.now }
{
    let mut jobs = machine.jobs.as_slice().iter();
    jobs.all(|other| match running_job(machine, other.action) {
        Some(job) => called_job(machine, &job),
        None => true,
    })
}

fn in_one_call(left: &Session, right: &Session) -> bool
    ensures { result ≡ are_in_one_call (Some left.now) (Some right.now) }
{
    !free(left.call) && calls_agree(left.call, right.call)
}

fn in_one_call_at(machine: &Machine, left: usize, right: usize) -> bool
    ensures { result ≡ are_in_one_call (at machine.now.mutators left) (at machine.now.mutators right) }
{
    match (machine.mutators.get(left), machine.mutators.get(right)) {
        (Some(one), Some(other)) => in_one_call(one, other),
        _ => false,
    }
}

fn calls_alone(machine: &Machine, mutator: usize) -> bool
    ensures { result ≡ call_is_apart machine.now mutator }
{
    (0..machine.mutators.len()).all(|other| mutator == other
        || !in_one_call_at(machine, mutator, other))
}

fn all_call_alone(machine: &Machine) -> bool
    ensures { result ≡ calls_are_apart machine.now }
{
    (0..machine.mutators.len()).all(|mutator| calls_alone(machine, mutator))
}

fn calls_tested(machine: &Machine) -> bool
    ensures { result ≡ calls_fit machine.now }
{
    all_fit(machine) && all_called(machine) && all_call_alone(machine) && jobs_called(machine)
}

/// Whether each call has the fence, the resource and the job that it needs, and each resource in use and each job of a
/// mutator is one mutator's call.
#[tactic(auto, using(crate::proofs::CallsDecided::calls_decided))]
pub fn are_calls(machine: &Machine) -> bool
    ensures { IsTrue result ↔ AreCalls machine.now }
{
    calls_tested(machine)
}

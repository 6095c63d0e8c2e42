//! The actions of cleanables, jobs, resources and faults.
ghost use Rattle.std.specs.Prelude.{◌≡◌, ◌+◌, ◌↔◌, ◌||◌, IsTrue, nat_eq, nat_lt, length, count_by, cond, Some, None};
ghost use Rattle.std.specs.Prelude.{is_none};
ghost use Rattle.std.specs.List.{list_all};
ghost use Rattle.jlr_machine.specs.Objects.{at, some_and, is_armed, is_spent};
ghost use Rattle.jlr_machine.specs.Lookups.{job_of};
ghost use Rattle.jlr_machine.specs.WellFormed.{AreActions, is_unspent_place};
ghost use Rattle.jlr_plain_images.specs.Places.{none_or, on_cleanable, rising_by, is_only_key, keys_are_apart};
ghost use Rattle.jlr_plain_images.specs.Actions.{unspent_action, is_action, acts, all_are_actions, action_of};
ghost use Rattle.jlr_plain_images.specs.Actions.{counts_fit, actions_fit};

use jlr_machine::machine::{Job, Machine};
use jlr_machine::object::{CleanState, Cleanable, Object};
use jlr_plain_asks::lookups::running_job;
use jlr_types::ActionNo;

fn action_unless_spent(cleanable: &Cleanable) -> Option<ActionNo>
    ensures { result ≡ cond (is_spent cleanable.now.state) None (Some cleanable.now.action) }
{
    match cleanable.state {
        CleanState::Spent => None,
        _ => Some(cleanable.action),
    }
}

/// The action of the unspent cleanable there, if it is one.
fn unspent_at(machine: &Machine, slot: usize) -> Option<ActionNo>
    ensures { result ≡ unspent_action (at machine.now.objects slot) }
{
    match machine.objects.get(slot) {
        Some(Object::Cleanable(cleanable)) => action_unless_spent(cleanable),
        _ => None,
    }
}

fn is_action_of(action: ActionNo, other: Option<ActionNo>) -> bool
    ensures { result ≡ some_and (nat_eq action) other }
{
    match other {
        Some(other) => action.number() == other.number(),
        None => false,
    }
}

/// Whether no other unspent cleanable has this action.
fn acts_alone(machine: &Machine, slot: usize, action: ActionNo) -> bool
    ensures { result ≡ is_only_key unspent_action machine.now.objects slot action }
{
    (0..machine.objects.len()).all(|other| slot == other
        || !is_action_of(action, unspent_at(machine, other)))
}

fn cleanables_act_alone(machine: &Machine) -> bool
    ensures { result ≡ keys_are_apart unspent_action machine.now.objects }
{
    (0..machine.objects.len()).all(|slot| match unspent_at(machine, slot) {
        Some(action) => acts_alone(machine, slot, action),
        None => true,
    })
}

/// Whether it is an action that was given out.
fn given_out(machine: &Machine, action: ActionNo) -> bool
    ensures { result ≡ is_action machine.now action }
{
    1 <= action.number() && action.number() < machine.next_action
}

fn is_spent_or_idle(machine: &Machine, cleanable: &Cleanable) -> bool
    ensures { result ≡ (is_spent cleanable.now.state || is_none (job_of machine.now cleanable.now.action)) }
{
    match cleanable.state {
        CleanState::Spent => true,
        _ => running_job(machine, cleanable.action).is_none(),
    }
}

fn is_armed_or_free(cleanable: &Cleanable) -> bool
    ensures { result ≡ (is_armed cleanable.now.state || is_none cleanable.now.referent) }
{
    match cleanable.state {
        CleanState::Armed => true,
        _ => cleanable.referent.is_none(),
    }
}

fn acts_well(machine: &Machine, cleanable: &Cleanable) -> bool
    ensures { result ≡ acts machine.now cleanable.now }
{
    given_out(machine, cleanable.action)
        && is_spent_or_idle(machine, cleanable)
        && is_armed_or_free(cleanable)
}

fn cleanables_act_well(machine: &Machine) -> bool
    ensures { result ≡ list_all (none_or (on_cleanable (acts machine.now))) machine.now.objects }
{
    let mut places = machine.objects.as_slice().iter();
    places.all(|place| match place {
        Some(Object::Cleanable(cleanable)) => acts_well(machine, cleanable),
        _ => true,
    })
}

fn all_later(job: &Job, jobs: &[Job]) -> bool
    ensures { result ≡ list_all (λ other. nat_lt job.now.action other.action) jobs.now }
{
    jobs.iter()
        .all(|other| job.action.number() < other.action.number())
}

fn jobs_rise(jobs: &[Job]) -> bool
    ensures { result ≡ rising_by action_of jobs.now }
{
    let mut i: usize = 0;
    while i < jobs.len() {
        if !all_later(&jobs[i], &jobs[i + 1..]) {
            return false;
        }
        i += 1;
    }
    true
}

fn jobs_act(machine: &Machine) -> bool
    ensures { result ≡ list_all (λ job. is_action machine.now job.action) machine.now.jobs }
{
    let mut jobs = machine.jobs.as_slice().iter();
    jobs.all(|job| given_out(machine, job.action))
}

fn resources_act(machine: &Machine) -> bool
    ensures { result ≡ list_all (λ r. is_action machine.now r.action) machine.now.resources }
{
    let mut resources = machine.resources.as_slice().iter();
    resources.all(|resource| given_out(machine, resource.action))
}

fn faults_act(machine: &Machine) -> bool
    ensures { result ≡ list_all (λ f. is_action machine.now f.action) machine.now.faults }
{
    let mut faults = machine.faults.as_slice().iter();
    faults.all(|failure| given_out(machine, failure.action))
}

fn all_act(machine: &Machine) -> bool
    ensures { result ≡ all_are_actions machine.now }
{
    jobs_act(machine) && resources_act(machine) && faults_act(machine)
}

fn cleaners_jobs(jobs: &[Job]) -> usize
    ensures { result ≡ count_by (λ job. nat_eq job.by 255) jobs.now }
{
    jobs.iter().filter(|job| job.by == 255).count()
}

fn is_unspent(place: &Option<Object>) -> bool
    ensures { result ≡ is_unspent_place place.now }
{
    match place {
        Some(Object::Cleanable(cleanable)) => action_unless_spent(cleanable).is_some(),
        _ => false,
    }
}

fn unspent(places: &[Option<Object>]) -> usize
    ensures { result ≡ count_by is_unspent_place places.now }
{
    let mut count: usize = 0;
    for place in places {
        if is_unspent(place) {
            count += 1;
        }
    }
    count
}

fn taken_are_over_or_running(machine: &Machine) -> bool
    ensures { result ≡ nat_eq machine.now.taken (machine.now.ok + machine.now.failed + length machine.now.jobs) }
{
    let over = u128::from(machine.ok) + u128::from(machine.failed);
    u128::from(machine.taken) == over + machine.jobs.len() as u128
}

fn numbers_are_left(machine: &Machine) -> bool
    ensures { result ≡ nat_lt (machine.now.taken + count_by is_unspent_place machine.now.objects)
        machine.now.next_action }
{
    let used = u128::from(machine.taken) + unspent(machine.objects.as_slice()) as u128;
    used < u128::from(machine.next_action)
}

fn counts_are_right(machine: &Machine) -> bool
    ensures { result ≡ counts_fit machine.now }
{
    cleaners_jobs(machine.jobs.as_slice()) <= 1
        && taken_are_over_or_running(machine)
        && numbers_are_left(machine)
}

fn actions_tested(machine: &Machine) -> bool
    ensures { result ≡ actions_fit machine.now }
{
    cleanables_act_alone(machine)
        && cleanables_act_well(machine)
        && jobs_rise(machine.jobs.as_slice())
        && all_act(machine)
        && counts_are_right(machine)
}

/// Whether the actions of unspent cleanables and running jobs are distinct, each action was given out, only Armed
/// cleanables have a referent, at most one job is the cleaner's, and the counts fit.
#[tactic(auto, using(crate::proofs::ActionsDecided::actions_decided))]
pub fn are_actions(machine: &Machine) -> bool
    ensures { IsTrue result ↔ AreActions machine.now }
{
    actions_tested(machine)
}

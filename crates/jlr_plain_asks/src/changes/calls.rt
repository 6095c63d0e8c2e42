//! Calls on resources, and the ends of jobs.
ghost use Rattle.std.specs.Prelude.{◌≡◌, ◌+◌, ◌^◌, ◌<◌, IfOk, OnOk, OnErr};
ghost use Rattle.jlr_machine.specs.declared.ask.Outcome.TheVariants.{Ok as OutcomeOk, Failed};
ghost use Rattle.jlr_machine.specs.Calls.{fence_of, guard_fenced, opened, checked_out, checked_in, noted, finished};
ghost use Rattle.jlr_machine.specs.Calls.{free_again};

use crate::changes::lists::{job_removed, last_with};
use crate::changes::objects::{Change, change_in};
use crate::changes::queues::hold;
use crate::changes::takes::{move_resource, put_in_call, remove_resource, remove_work};
use crate::lookups::{guard_of, object_at, session_of};
use jlr_machine::ask::{CLEANER, Outcome};
use jlr_machine::copy::copy_slice;
use jlr_machine::items::Items;
use jlr_machine::machine::{Call, Failure, Job, Machine, ResourceState};
use jlr_machine::object::Guard;
use jlr_types::{Fault, Mutator, Slot, Work};
use std::alloc::{AllocError, Global};

fn fence_held(machine: &Machine, mutator: Mutator) -> Option<Slot>
    ensures { result ≡ fence_of machine.now mutator }
{
    match session_of(machine, mutator) {
        Some(session) => session.fence,
        None => None,
    }
}

/// The guard that the mutator's call holds by its fence.
pub fn fenced_guard(machine: &Machine, mutator: Mutator) -> Option<Guard>
    ensures { result ≡ guard_fenced machine.now mutator }
{
    let Some(slot) = fence_held(machine, mutator) else {
        return None;
    };
    match object_at(machine, slot) {
        Some(object) => guard_of(object),
        None => None,
    }
}

fn open_well(
    alloc: Global,
    machine: &mut Machine,
    mutator: Mutator,
    guard: Guard,
) -> Result<(), AllocError>
    ensures ok { OnOk result (machine.new ≡ opened machine.old mutator guard OutcomeOk) }
    ensures err { OnErr result (machine.new ≡ machine.old) }
{
    let fence = fence_held(machine, mutator);
    move_resource(alloc, machine, guard.rid, ResourceState::Idle)?;
    put_in_call(alloc, machine, mutator, None, Call::Free);
    hold(alloc, machine, mutator, fence);
    Ok(())
}

fn open_badly(
    alloc: Global,
    machine: &mut Machine,
    mutator: Mutator,
    guard: Guard,
    fault: Fault,
) -> Result<(), AllocError>
    ensures ok { OnOk result (machine.new ≡ opened machine.old mutator guard (Failed fault)) }
    ensures err { OnErr result (machine.new ≡ machine.old) }
{
    remove_resource(alloc, machine, guard.rid)?;
    change_in(alloc, machine, guard.cleanable, Change::Spend);
    put_in_call(alloc, machine, mutator, None, Call::Free);
    Ok(())
}

/// An open ends.
///
/// # Errors
/// `AllocError` where there is no memory. The machine is then as it was.
pub fn open(
    alloc: Global,
    machine: &mut Machine,
    mutator: Mutator,
    guard: Guard,
    outcome: Outcome,
) -> Result<(), AllocError>
    ensures ok { OnOk result (machine.new ≡ opened machine.old mutator guard outcome) }
    ensures err { OnErr result (machine.new ≡ machine.old) }
{
    match outcome {
        Outcome::Ok => open_well(alloc, machine, mutator, guard),
        Outcome::Failed(fault) => open_badly(alloc, machine, mutator, guard, fault),
    }
}

/// A call begins, with this fence.
///
/// # Errors
/// `AllocError` where there is no memory. The machine is then as it was.
pub fn check_out(
    alloc: Global,
    machine: &mut Machine,
    mutator: Mutator,
    fence: Option<Slot>,
    guard: Guard,
) -> Result<(), AllocError>
    ensures ok { OnOk result (machine.new ≡ checked_out machine.old mutator fence guard) }
    ensures err { OnErr result (machine.new ≡ machine.old) }
{
    move_resource(alloc, machine, guard.rid, ResourceState::Out)?;
    put_in_call(alloc, machine, mutator, fence, Call::Out(guard.rid));
    Ok(())
}

/// A call ends.
///
/// # Errors
/// `AllocError` where there is no memory. The machine is then as it was.
pub fn check_in(
    alloc: Global,
    machine: &mut Machine,
    mutator: Mutator,
    guard: Guard,
) -> Result<(), AllocError>
    ensures ok { OnOk result (machine.new ≡ checked_in machine.old mutator guard) }
    ensures err { OnErr result (machine.new ≡ machine.old) }
{
    move_resource(alloc, machine, guard.rid, ResourceState::Idle)?;
    put_in_call(alloc, machine, mutator, None, Call::Free);
    Ok(())
}

fn notes_with(alloc: Global, notes: &[u32], work: Work) -> Result<Vec<u32>, AllocError>
    ensures { IfOk result (λ v. v.items ≡ noted notes.now work) }
{
    match work {
        Work::Note(note) => last_with(alloc, notes, note),
        Work::Resource(_) => copy_slice(alloc, notes),
    }
}

fn finish_well(alloc: Global, machine: &mut Machine, job: Job) -> Result<(), AllocError>
    requires { machine.old.ok + 1 < 2 ^ 64 }
    ensures ok { OnOk result (machine.new ≡ finished machine.old job OutcomeOk) }
    ensures err { OnErr result (machine.new ≡ machine.old) }
{
    let notes = notes_with(alloc, machine.notes.as_slice(), job.work)?;
    let jobs = job_removed(alloc, machine.jobs.as_slice(), job.action)?;
    remove_work(alloc, machine, job.work)?;
    machine.jobs = Items::from_vec(jobs);
    machine.ok += 1;
    machine.notes = Items::from_vec(notes);
    Ok(())
}

fn finish_badly(
    alloc: Global,
    machine: &mut Machine,
    job: Job,
    fault: Fault,
) -> Result<(), AllocError>
    requires { machine.old.failed + 1 < 2 ^ 64 }
    ensures ok { OnOk result (machine.new ≡ finished machine.old job (Failed fault)) }
    ensures err { OnErr result (machine.new ≡ machine.old) }
{
    let failure = Failure {
        action: job.action,
        fault,
    };
    let faults = last_with(alloc, machine.faults.as_slice(), failure)?;
    let jobs = job_removed(alloc, machine.jobs.as_slice(), job.action)?;
    remove_work(alloc, machine, job.work)?;
    machine.jobs = Items::from_vec(jobs);
    machine.failed += 1;
    machine.faults = Items::from_vec(faults);
    Ok(())
}

fn finish_job(
    alloc: Global,
    machine: &mut Machine,
    job: Job,
    outcome: Outcome,
) -> Result<(), AllocError>
    requires ok { machine.old.ok + 1 < 2 ^ 64 }
    requires failed { machine.old.failed + 1 < 2 ^ 64 }
    ensures ok { OnOk result (machine.new ≡ finished machine.old job outcome) }
    ensures err { OnErr result (machine.new ≡ machine.old) }
{
    match outcome {
        Outcome::Ok => finish_well(alloc, machine, job),
        Outcome::Failed(fault) => finish_badly(alloc, machine, job, fault),
    }
}

fn free(alloc: Global, machine: &mut Machine, by: u8)
    ensures { machine.new ≡ free_again machine.old by }
{
    if by != CLEANER {
        put_in_call(alloc, machine, Mutator::new(by), None, Call::Free);
    }
}

/// A job ends, whose taker is free again.
///
/// # Errors
/// `AllocError` where there is no memory. The machine is then as it was.
pub fn finish(
    alloc: Global,
    machine: &mut Machine,
    by: u8,
    job: Job,
    outcome: Outcome,
) -> Result<(), AllocError>
    requires ok { machine.old.ok + 1 < 2 ^ 64 }
    requires failed { machine.old.failed + 1 < 2 ^ 64 }
    ensures ok { OnOk result (machine.new ≡ free_again (finished machine.old job outcome) by) }
    ensures err { OnErr result (machine.new ≡ machine.old) }
{
    finish_job(alloc, machine, job, outcome)?;
    free(alloc, machine, by);
    Ok(())
}

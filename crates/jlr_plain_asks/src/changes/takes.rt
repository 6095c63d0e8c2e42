//! Take-ups of cleaning actions, and the resources that they work on.
ghost use Rattle.std.specs.Prelude.{◌≡◌, ◌+◌, ◌^◌, ◌<◌, Some, drop, OnOk, OnErr};
ghost use Rattle.jlr_machine.specs.Lookups.{with_call, with_state, without_resource, rid_of};
ghost use Rattle.jlr_machine.specs.Calls.{with_work_state, without_work_resource, taken_up, cleaned, from_lined};
ghost use Rattle.jlr_machine.specs.Calls.{line_taken};
ghost use Rattle.jlr_plain_asks.specs.Changes.{taken_by_cleaner};

use crate::answers::handing::line_from;
use crate::changes::lists::{job_added, resource_moved, resource_removed};
use crate::changes::objects::{Change, change_in, drop_first};
use crate::changes::sessions::{SessionChange, change_seat};
use crate::lookups::cleanable_in;
use crate::refusals::is_spent_state;
use jlr_machine::ask::CLEANER;
use jlr_machine::items::Items;
use jlr_machine::machine::{Call, Job, Machine, ResourceState};
use jlr_machine::object::Cleanable;
use jlr_types::{Mutator, Rid, Slot, Work};
use std::alloc::{AllocError, Global};

/// Puts the mutator into this call, with this fence. Takes no memory.
pub(crate) fn put_in_call(
    alloc: Global,
    machine: &mut Machine,
    mutator: Mutator,
    fence: Option<Slot>,
    call: Call,
)
    ensures { machine.new ≡ with_call machine.old mutator fence call }
{
    change_seat(alloc, machine, mutator, SessionChange::Call(fence, call));
}

/// Moves the resource with this Rid to that state.
///
/// # Errors
/// `AllocError` where there is no memory. The machine is then as it was.
pub(crate) fn move_resource(
    alloc: Global,
    machine: &mut Machine,
    rid: Rid,
    state: ResourceState,
) -> Result<(), AllocError>
    ensures ok { OnOk result (machine.new ≡ with_state machine.old rid state) }
    ensures err { OnErr result (machine.new ≡ machine.old) }
{
    let resources = resource_moved(alloc, machine.resources.as_slice(), rid, state)?;
    machine.resources = Items::from_vec(resources);
    Ok(())
}

/// Takes the resource out that has this Rid.
///
/// # Errors
/// `AllocError` where there is no memory. The machine is then as it was.
pub(crate) fn remove_resource(
    alloc: Global,
    machine: &mut Machine,
    rid: Rid,
) -> Result<(), AllocError>
    ensures ok { OnOk result (machine.new ≡ without_resource machine.old rid) }
    ensures err { OnErr result (machine.new ≡ machine.old) }
{
    let resources = resource_removed(alloc, machine.resources.as_slice(), rid)?;
    machine.resources = Items::from_vec(resources);
    Ok(())
}

fn move_work(
    alloc: Global,
    machine: &mut Machine,
    work: Work,
    state: ResourceState,
) -> Result<(), AllocError>
    ensures ok { OnOk result (machine.new ≡ with_work_state machine.old (rid_of work) state) }
    ensures err { OnErr result (machine.new ≡ machine.old) }
{
    match work {
        Work::Note(_) => Ok(()),
        Work::Resource(rid) => move_resource(alloc, machine, rid, state),
    }
}

/// Takes the resource of this work out, if it is one.
///
/// # Errors
/// `AllocError` where there is no memory. The machine is then as it was.
pub(crate) fn remove_work(
    alloc: Global,
    machine: &mut Machine,
    work: Work,
) -> Result<(), AllocError>
    ensures ok { OnOk result (machine.new ≡ without_work_resource machine.old (rid_of work)) }
    ensures err { OnErr result (machine.new ≡ machine.old) }
{
    match work {
        Work::Note(_) => Ok(()),
        Work::Resource(rid) => remove_resource(alloc, machine, rid),
    }
}

/// A take-up makes the cleanable Spent and adds a running job. What takes memory comes first.
///
/// # Errors
/// `AllocError` where there is no memory. The machine is then as it was.
pub fn take_up(
    alloc: Global,
    machine: &mut Machine,
    by: u8,
    slot: Slot,
    cleanable: Cleanable,
) -> Result<(), AllocError>
    requires { machine.old.taken + 1 < 2 ^ 64 }
    ensures ok { OnOk result (machine.new ≡ taken_up machine.old by slot cleanable) }
    ensures err { OnErr result (machine.new ≡ machine.old) }
{
    let job = Job {
        action: cleanable.action,
        work: cleanable.work,
        by,
    };
    let jobs = job_added(alloc, machine.jobs.as_slice(), job)?;
    move_work(alloc, machine, cleanable.work, ResourceState::Closing)?;
    change_in(alloc, machine, slot, Change::Spend);
    machine.jobs = Items::from_vec(jobs);
    machine.taken += 1;
    Ok(())
}

fn clean_one(
    alloc: Global,
    machine: &mut Machine,
    mutator: Mutator,
    slot: Slot,
    cleanable: Cleanable,
) -> Result<(), AllocError>
    requires { machine.old.taken + 1 < 2 ^ 64 }
    ensures ok { OnOk result (machine.new ≡ cleaned machine.old mutator slot (Some cleanable)) }
    ensures err { OnErr result (machine.new ≡ machine.old) }
{
    if is_spent_state(cleanable.state) {
        return Ok(());
    }
    let action = cleanable.action;
    take_up(alloc, machine, mutator.number(), slot, cleanable)?;
    put_in_call(alloc, machine, mutator, None, Call::Job(action));
    Ok(())
}

/// A take-up by a mutator; a Spent cleanable is done already.
///
/// # Errors
/// `AllocError` where there is no memory. The machine is then as it was.
pub(crate) fn clean_by(
    alloc: Global,
    machine: &mut Machine,
    mutator: Mutator,
    slot: Slot,
    cleanable: Option<Cleanable>,
) -> Result<(), AllocError>
    requires { machine.old.taken + 1 < 2 ^ 64 }
    ensures ok { OnOk result (machine.new ≡ cleaned machine.old mutator slot cleanable) }
    ensures err { OnErr result (machine.new ≡ machine.old) }
{
    match cleanable {
        Some(cleanable) => clean_one(alloc, machine, mutator, slot, cleanable),
        None => Ok(()),
    }
}

// ---- The line

/// A list of slots without so many of its first.
fn drop_many(alloc: Global, slots: &mut Items<Slot>, count: usize)
    ensures { slots.new ≡ drop count slots.old }
{
    for _ in 0..count {
        drop_first(alloc, slots);
    }
}

/// A take-up by the cleaner of what is first in the line, or no take-up if that is no cleanable.
fn take_up_first(
    alloc: Global,
    machine: &mut Machine,
    slot: Slot,
    cleanable: Option<Cleanable>,
) -> Result<(), AllocError>
    requires { machine.old.taken + 1 < 2 ^ 64 }
    ensures ok { OnOk result (machine.new ≡ taken_by_cleaner machine.old slot cleanable) }
    ensures err { OnErr result (machine.new ≡ machine.old) }
{
    match cleanable {
        Some(cleanable) => take_up(alloc, machine, CLEANER, slot, cleanable),
        None => Ok(()),
    }
}

/// A take-up by the cleaner, of the first Lined cleanable of the line; those before it leave the line.
///
/// # Errors
/// `AllocError` where there is no memory. The machine is then as it was.
pub(crate) fn take_line(alloc: Global, machine: &mut Machine) -> Result<(), AllocError>
    requires { machine.old.taken + 1 < 2 ^ 64 }
    ensures ok { OnOk result (machine.new ≡ line_taken machine.old (from_lined machine.old machine.old.line)) }
    ensures err { OnErr result (machine.new ≡ machine.old) }
{
    let lined = line_from(machine, machine.line.as_slice());
    let before = machine.line.len() - lined.len();
    let Some(slot) = lined.first().copied() else {
        machine.line = Items::new(alloc);
        return Ok(());
    };
    let cleanable = cleanable_in(machine, slot);
    take_up_first(alloc, machine, slot, cleanable)?;
    drop_many(alloc, &mut machine.line, before + 1);
    Ok(())
}

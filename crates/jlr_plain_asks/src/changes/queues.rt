//! Queues of references, and the handler's step.
ghost use Rattle.std.specs.Prelude.{◌≡◌, option_and_then, option_map, OnOk, OnErr};
ghost use Rattle.jlr_machine.specs.declared.ask.Handed.TheVariants.{Lined};
ghost use Rattle.jlr_machine.specs.Objects.{at, as_reference, queue_ahead};
ghost use Rattle.jlr_machine.specs.Calls.{with_given, enqueued, polled, poll_given, delivered, handed, handed_over};
ghost use Rattle.jlr_plain_asks.specs.Changes.{delivered_if};

use crate::answers::handing::step_for;
use crate::changes::objects::{Change, append, change_in, drop_first};
use crate::changes::sessions::{SessionChange, change_seat};
use crate::lookups::{named_slot, object_at, queue_of, reference_of};
use jlr_machine::ask::Handed;
use jlr_machine::machine::Machine;
use jlr_types::{Handle, Mutator, Slot};
use std::alloc::{AllocError, Global};

/// Lets the mutator hold this, if there is something to hold. Takes no memory.
pub fn hold(alloc: Global, machine: &mut Machine, mutator: Mutator, slot: Option<Slot>)
    ensures { machine.new ≡ with_given machine.old mutator slot }
{
    if let Some(slot) = slot {
        change_seat(alloc, machine, mutator, SessionChange::Hold(slot));
    }
}

fn queue_ahead_at(machine: &Machine, slot: Slot) -> Option<Slot>
    ensures { result ≡ option_and_then queue_ahead (option_and_then as_reference (at machine.now.objects slot)) }
{
    let Some(object) = object_at(machine, slot) else {
        return None;
    };
    match reference_of(object) {
        Some(reference) => queue_of(&reference),
        None => None,
    }
}

/// Takes the referent from the reference at the slot, and puts it to the end of its queue, if it may. The queue grows
/// first.
///
/// # Errors
/// `AllocError` where there is no memory. The machine is then as it was.
pub fn enqueue(alloc: Global, machine: &mut Machine, slot: Slot) -> Result<(), AllocError>
    ensures ok { OnOk result (machine.new ≡ enqueued machine.old slot) }
    ensures err { OnErr result (machine.new ≡ machine.old) }
{
    let Some(queue) = queue_ahead_at(machine, slot) else {
        change_in(alloc, machine, slot, Change::Unrefer);
        return Ok(());
    };
    append(alloc, machine, queue, slot)?;
    change_in(alloc, machine, slot, Change::Unrefer);
    change_in(alloc, machine, slot, Change::Enqueue);
    Ok(())
}

fn poll_to(alloc: Global, machine: &mut Machine, mutator: Mutator, queue: Slot, slot: Option<Slot>)
    ensures { machine.new ≡ with_given (polled machine.old queue slot) mutator slot }
{
    let Some(slot) = slot else {
        return;
    };
    change_in(alloc, machine, queue, Change::DropFirst);
    change_in(alloc, machine, slot, Change::Remove);
    change_seat(alloc, machine, mutator, SessionChange::Hold(slot));
}

/// Removes the front of a queue from it and gives it to the mutator. Takes no memory.
pub(crate) fn poll_for(
    alloc: Global,
    machine: &mut Machine,
    mutator: Mutator,
    queue: Handle,
    slot: Option<Slot>,
)
    ensures { machine.new ≡ poll_given machine.old mutator queue slot }
{
    if let Some(queue) = named_slot(machine, mutator, queue) {
        poll_to(alloc, machine, mutator, queue, slot);
    }
}

fn line_up(alloc: Global, machine: &mut Machine, slot: Slot) -> Result<(), AllocError>
    ensures ok { OnOk result (machine.new ≡ delivered machine.old slot Lined) }
    ensures err { OnErr result (machine.new ≡ machine.old) }
{
    machine.line.push(slot)?;
    change_in(alloc, machine, slot, Change::Line);
    Ok(())
}

fn deliver(alloc: Global, machine: &mut Machine, slot: Slot, step: Handed) -> Result<(), AllocError>
    ensures ok { OnOk result (machine.new ≡ delivered machine.old slot step) }
    ensures err { OnErr result (machine.new ≡ machine.old) }
{
    match step {
        Handed::Queued => enqueue(alloc, machine, slot),
        Handed::Lined => line_up(alloc, machine, slot),
        Handed::Skipped => Ok(()),
        Handed::Nothing => Ok(()),
    }
}

fn step_at(machine: &Machine, slot: Slot) -> Option<Handed>
    ensures { result ≡ option_map handed (at machine.now.objects slot) }
{
    match object_at(machine, slot) {
        Some(object) => Some(step_for(object)),
        None => None,
    }
}

fn deliver_if(
    alloc: Global,
    machine: &mut Machine,
    slot: Slot,
    step: Option<Handed>,
) -> Result<(), AllocError>
    ensures ok { OnOk result (machine.new ≡ delivered_if machine.old slot step) }
    ensures err { OnErr result (machine.new ≡ machine.old) }
{
    match step {
        Some(step) => deliver(alloc, machine, slot, step),
        None => Ok(()),
    }
}

/// The handler's step, with the first of the pending list, which leaves it.
///
/// # Errors
/// `AllocError` where there is no memory. The machine is then as it was.
pub fn hand_over(alloc: Global, machine: &mut Machine) -> Result<(), AllocError>
    ensures ok { OnOk result (machine.new ≡ handed_over machine.old machine.old.pending) }
    ensures err { OnErr result (machine.new ≡ machine.old) }
{
    let Some(slot) = machine.pending.as_slice().first().copied() else {
        return Ok(());
    };
    let step = step_at(machine, slot);
    deliver_if(alloc, machine, slot, step)?;
    drop_first(alloc, &mut machine.pending);
    Ok(())
}

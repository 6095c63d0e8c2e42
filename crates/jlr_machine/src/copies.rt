//! Copies of machines: exact, or out of memory. Few need them.
ghost use Rattle.std.specs.Prelude.{◌≡◌, [], IfOk};

use crate::copy::copy_items;
use crate::items::Items;
use crate::machine::{Binding, Machine, Session};
use crate::object::Object;
use crate::table::Table;
use std::alloc::{AllocError, Global};

fn copy_place(alloc: Global, place: &Option<Object>) -> Result<Option<Object>, AllocError>
    ensures { IfOk result (λ c. c ≡ place.now) }
{
    match place {
        Some(object) => Ok(Some(object.copy(alloc)?)),
        None => Ok(None),
    }
}

fn copy_places(alloc: Global, places: &[Option<Object>]) -> Result<Vec<Option<Object>>, AllocError>
    ensures { IfOk result (λ v. v.items ≡ places.now) }
{
    let mut out = Vec::new(alloc);
    for place in places {
        out.push(copy_place(alloc, place)?)?;
    }
    Ok(out)
}

fn copy_seat(alloc: Global, seat: &Option<Session>) -> Result<Option<Session>, AllocError>
    ensures { IfOk result (λ c. c ≡ seat.now) }
{
    match seat {
        Some(session) => Ok(Some(session.copy(alloc)?)),
        None => Ok(None),
    }
}

fn copy_seats(alloc: Global, seats: &[Option<Session>]) -> Result<Vec<Option<Session>>, AllocError>
    ensures { IfOk result (λ v. v.items ≡ seats.now) }
{
    let mut out = Vec::new(alloc);
    for seat in seats {
        out.push(copy_seat(alloc, seat)?)?;
    }
    Ok(out)
}

fn copy_bindings(alloc: Global, bindings: &[Binding]) -> Result<Vec<Binding>, AllocError>
    ensures { IfOk result (λ v. v.items ≡ bindings.now) }
{
    let mut out = Vec::new(alloc);
    for binding in bindings {
        out.push(binding.copy())?;
    }
    Ok(out)
}

/// The same numbers, with lists and tables that are empty.
fn without_lists(alloc: Global, machine: &Machine) -> Machine
    ensures { result ≡ record machine.now {
      objects = [];
      mutators = [];
      names = [];
      pending = [];
      line = [];
      jobs = [];
      resources = [];
      faults = [];
      notes = [];
      seen = [];
    } }
{
    Machine {
        objects: Table::from_vec(Vec::new(alloc)),
        mutators: Table::from_vec(Vec::new(alloc)),
        names: Items::new(alloc),
        pending: Items::new(alloc),
        line: Items::new(alloc),
        jobs: Items::new(alloc),
        resources: Items::new(alloc),
        resource_limit: machine.resource_limit,
        faults: Items::new(alloc),
        notes: Items::new(alloc),
        next_action: machine.next_action,
        taken: machine.taken,
        ok: machine.ok,
        failed: machine.failed,
        cycle_open: machine.cycle_open,
        seen: Items::new(alloc),
    }
}

/// Puts copies of the lists and tables of a machine into another, which is lent, so that no exit lets go of it.
fn copy_lists(alloc: Global, machine: &Machine, copy: &mut Machine) -> Result<(), AllocError>
    ensures { IfOk result (λ _. copy.new ≡ record copy.old {
      objects = machine.now.objects;
      mutators = machine.now.mutators;
      names = machine.now.names;
      pending = machine.now.pending;
      line = machine.now.line;
      jobs = machine.now.jobs;
      resources = machine.now.resources;
      faults = machine.now.faults;
      notes = machine.now.notes;
      seen = machine.now.seen;
    }) }
{
    copy.objects = Table::from_vec(copy_places(alloc, machine.objects.as_slice())?);
    copy.mutators = Table::from_vec(copy_seats(alloc, machine.mutators.as_slice())?);
    copy.names = Items::from_vec(copy_bindings(alloc, machine.names.as_slice())?);
    copy.pending = copy_items(alloc, &machine.pending)?;
    copy.line = copy_items(alloc, &machine.line)?;
    copy.jobs = copy_items(alloc, &machine.jobs)?;
    copy.resources = copy_items(alloc, &machine.resources)?;
    copy.faults = copy_items(alloc, &machine.faults)?;
    copy.notes = copy_items(alloc, &machine.notes)?;
    copy.seen = copy_items(alloc, &machine.seen)?;
    Ok(())
}

/// The same machine.
///
/// # Errors
/// `AllocError` where there is no memory.
pub fn copy_machine(alloc: Global, machine: &Machine) -> Result<Machine, AllocError>
    ensures { IfOk result (λ c. c ≡ machine.now) }
{
    let mut copy = without_lists(alloc, machine);
    if copy_lists(alloc, machine, &mut copy).is_err() {
        drop(copy);
        return Err(AllocError);
    }
    Ok(copy)
}

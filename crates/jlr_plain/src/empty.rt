//! The empty machine.
ghost use Rattle.std.specs.Prelude.{ℕ, ◌≡◌, replicate, None, IfOk};
ghost use Rattle.jlr_machine.specs.Run.{empty, empty_from};

use jlr_machine::items::Items;
use jlr_machine::machine::{Machine, Session};
use jlr_machine::object::Object;
use jlr_machine::table::Table;
use std::alloc::{AllocError, Global};

fn no_objects(alloc: Global, cells: usize) -> Result<Vec<Option<Object>>, AllocError>
    ensures { IfOk result (λ v. v.items ≡ replicate cells None) }
{
    let mut out = Vec::new(alloc);
    for _cell in 0..cells {
        out.push(None)?;
    }
    Ok(out)
}

fn no_sessions(alloc: Global, sessions: usize) -> Result<Vec<Option<Session>>, AllocError>
    ensures { IfOk result (λ v. v.items ≡ replicate sessions None) }
{
    let mut out = Vec::new(alloc);
    for _seat in 0..sessions {
        out.push(None)?;
    }
    Ok(out)
}

/// The empty machine of these limits, whose next action is 1.
///
/// # Errors
/// `AllocError` where there is no memory.
pub fn empty_plain(
    alloc: Global,
    cells: usize,
    sessions: usize,
    resources: u32,
) -> Result<Machine, AllocError>
    ensures { IfOk result (λ m. m ≡ empty cells sessions resources) }
{
    empty_plain_from(alloc, cells, sessions, resources, 1)
}

/// The empty machine of these limits with this next action.
///
/// # Errors
/// `AllocError` where there is no memory.
pub fn empty_plain_from(
    alloc: Global,
    cells: usize,
    sessions: usize,
    resources: u32,
    next_action: u64,
) -> Result<Machine, AllocError>
    ensures { IfOk result (λ m. m ≡ empty_from cells sessions resources next_action) }
{
    let objects = no_objects(alloc, cells)?;
    let Ok(seats) = no_sessions(alloc, sessions) else {
        drop(objects);
        return Err(AllocError);
    };
    Ok(machine_of(alloc, objects, seats, resources, next_action))
}

/// The machine of such tables, without anything else.
fn machine_of(
    alloc: Global,
    objects: Vec<Option<Object>>,
    seats: Vec<Option<Session>>,
    resources: u32,
    next_action: u64,
) -> Machine
    ensures { result ≡ record (empty_from 0 0 resources next_action) {
      objects = objects.items;
      mutators = seats.items;
    } }
{
    Machine {
        objects: Table::from_vec(objects),
        mutators: Table::from_vec(seats),
        names: Items::new(alloc),
        pending: Items::new(alloc),
        line: Items::new(alloc),
        jobs: Items::new(alloc),
        resources: Items::new(alloc),
        resource_limit: resources,
        faults: Items::new(alloc),
        notes: Items::new(alloc),
        next_action,
        taken: 0,
        ok: 0,
        failed: 0,
        cycle_open: false,
        seen: Items::new(alloc),
    }
}

/// The empty machine of so many sessions and resources with these cells, none of which is taken. The next action is 1.
///
/// # Errors
/// `AllocError` where there is no memory.
pub fn empty_plain_with(
    alloc: Global,
    objects: Vec<Option<Object>>,
    sessions: usize,
    resources: u32,
) -> Result<Machine, AllocError>
    ensures { (cells : ℕ) → objects.items ≡ replicate cells None
        → IfOk result (λ m. m ≡ empty cells sessions resources) }
{
    let Ok(seats) = no_sessions(alloc, sessions) else {
        drop(objects);
        return Err(AllocError);
    };
    Ok(machine_of(alloc, objects, seats, resources, 1))
}

//! Rows while each allocation in turn is refused. `checks/failing.sh` runs this test once for each of its allocations;
//! in the gate it runs with none refused.
ghost use Rattle.std.specs.Prelude.{IfOk};
ghost use Rattle.jlr_machine.specs.WellFormed.{IsWellFormed};

use super::play::{first_wrong, start_of};
use super::same::same_machine;
use jlr_machine::machine::Machine;
use std::alloc::{AllocError, Global};
use std::test::Fail;

const ROWS: &str = "
    join -> done
    new -> handle 1, in 0
    weak 1 0 -> handle 2, in 1
    drop 1 -> done
    full -> done, keeps 1
    deref 2 -> handle 0
    leave -> done
";

/// The empty machine, made again where memory was refused once.
fn start_again(alloc: Global) -> Result<Machine, AllocError>
    ensures { IfOk result (λ m. IsWellFormed m) }
{
    match start_of(alloc, "") {
        Ok(machine) => Ok(machine),
        Err(_) => start_of(alloc, ""),
    }
}

// Whether the machine is another after the rows, which are as they say.
fn changes(alloc: Global, machine: &mut Machine, empty: &Machine) -> Result<bool, AllocError>
    requires { IsWellFormed machine.old }
{
    let was_empty = same_machine(machine, empty);
    let wrong = first_wrong(alloc, machine, ROWS)?.is_some();
    Ok(was_empty && !wrong && !same_machine(machine, empty))
}

fn another_changes(alloc: Global, empty: &Machine) -> Result<bool, AllocError> {
    let mut machine = start_again(alloc)?;
    let changed = changes(alloc, &mut machine, empty);
    drop(machine);
    changed
}

fn row_changes(alloc: Global) -> Result<bool, AllocError> {
    let empty = start_again(alloc)?;
    let changed = another_changes(alloc, &empty);
    drop(empty);
    changed
}

#[test]
fn a_want_of_memory_leaves_the_machine(rt: HostRuntime) -> Result<(), Fail> {
    assert!(rt; row_changes(rt.alloc())?);
    Ok(())
}

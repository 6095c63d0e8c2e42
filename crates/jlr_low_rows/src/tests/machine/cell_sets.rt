//! Sets of cells.
ghost use Rattle.std.specs.Prelude.{◌≡◌, IfOk, length};

use super::slot;
use jlr_sets::cell_set::CellSet;
use jlr_types::Slot;
use std::alloc::{AllocError, Global};
use std::test::Fail;

// Cells 0, 64 and 129 of 130.
pub(crate) fn three_of(alloc: Global) -> Result<CellSet, AllocError>
    ensures { IfOk result (λ set. length set ≡ 130) }
{
    let mut set = CellSet::new(alloc, 130)?;
    set.insert(Slot::new(0));
    set.insert(Slot::new(64));
    set.insert(Slot::new(129));
    Ok(set)
}

// Cell 2 of 4.
pub(crate) fn one_of(alloc: Global) -> Result<CellSet, AllocError>
    ensures { IfOk result (λ set. length set ≡ 4) }
{
    let mut set = CellSet::new(alloc, 4)?;
    set.insert(Slot::new(2));
    Ok(set)
}

#[test]
fn a_set_has_what_it_took_over_but_what_it_lost(rt: HostRuntime) -> Result<(), Fail> {
    let set = three_of(rt.alloc())?;
    let mut other = CellSet::new(rt.alloc(), 130)?;
    other.assign(&set);
    other.remove(Slot::new(64));
    let first = set.next_beyond(&other, 0);
    let next = set.next_beyond(&other, 65);
    let count = other.count();
    drop(set);
    drop(other);
    assert!(rt; first == slot(64) && next.is_none() && count == 2);
    Ok(())
}

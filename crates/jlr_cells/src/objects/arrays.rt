//! The arrays in cells that become free.
ghost use Rattle.std.specs.Prelude.{◌≡◌, ◌<◌, ℕ, Bool, List, false, length, true};
ghost use Rattle.jlr_machine.specs.Objects.{at, some_and};
ghost use Rattle.jlr_sets.specs.SlotSets.{is_in};
ghost use Rattle.jlr_cells.specs.Contents.{is_array, members_in};
ghost use Rattle.jlr_cells.specs.Showing.{shown};

use crate::Store;
use crate::cell::Cell;
use jlr_sets::cell_set::CellSet;
use jlr_types::Slot;

/// Arrays that are not kept are no more, and their memory is given back. No other cell is written.
pub(crate) fn free_arrays(store: &mut Store, kept: &CellSet)
    requires places { length kept.now ≡ length store.old }
    ensures same { shown kept.now store.new ≡ shown kept.now store.old }
    ensures kept { (s : ℕ) → is_in kept.now s ≡ true → at store.new s ≡ at store.old s }
    ensures places { length store.new ≡ length store.old }
    ensures members { (s : ℕ) → members_in (at store.new s) ≡ members_in (at store.old s) }
    ensures free { (s : ℕ) → is_in kept.now s ≡ false → some_and is_array (at store.new s) ≡ false }
{
    let _cells = kept.cell_count();
    let mut from = 0;
    while let Some(slot) = store.next_array(kept, from) {
        free_array(store, slot);
        from = slot.number() + 1;
    }
}

/// What lies at a slot is no more, if it is an array.
pub(crate) fn free_array(store: &mut Store, slot: Slot)
    requires { slot < length store.old }
    ensures others { (s : ℕ) → (s ≡ slot → ⊥) → at store.new s ≡ at store.old s }
    ensures hidden { (set : List Bool) → is_in set slot ≡ false → shown set store.new ≡ shown set store.old }
    ensures places { length store.new ≡ length store.old }
    ensures members { (s : ℕ) → members_in (at store.new s) ≡ members_in (at store.old s) }
    ensures free { some_and is_array (at store.new slot) ≡ false }
{
    if store.is_array(slot) {
        store.put(slot, Cell::Free);
    }
}

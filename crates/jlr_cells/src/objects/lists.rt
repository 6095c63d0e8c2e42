//! The queues that have members.
ghost use Rattle.std.specs.Prelude.{◌≡◌, ℕ, [], false, is_some, length, map, true};
ghost use Rattle.jlr_machine.specs.Objects.{at, some_and};
ghost use Rattle.jlr_sets.specs.SlotSets.{is_in};
ghost use Rattle.jlr_cells.specs.Contents.{is_array, members_in};
ghost use Rattle.jlr_cells.specs.Showing.{shown};

use crate::Store;
use jlr_sets::cell_set::CellSet;

/// Queues that are not kept lose their members.
pub(crate) fn clear_lists(store: &mut Store, listed: &mut CellSet, kept: &CellSet)
    requires places { length listed.old ≡ length store.old }
    requires members { (s : ℕ) → is_in listed.old s ≡ false → members_in (at store.old s) ≡ [] }
    ensures same { shown kept.now store.new ≡ shown kept.now store.old }
    ensures used { map is_some store.new ≡ map is_some store.old }
    ensures places { length listed.new ≡ length listed.old }
    ensures queues { (s : ℕ) → is_in listed.new s ≡ true → is_in kept.now s ≡ true }
    ensures arrays { (s : ℕ) → some_and is_array (at store.new s) ≡ some_and is_array (at store.old s) }
    ensures members { (s : ℕ) → is_in listed.new s ≡ false → members_in (at store.new s) ≡ [] }
{
    let mut from = 0;
    while let Some(slot) = listed.next_beyond(kept, from) {
        store.clear_members(slot);
        listed.remove(slot);
        from = slot.number() + 1;
    }
}

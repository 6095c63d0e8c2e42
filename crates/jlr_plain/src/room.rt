//! Room for new objects.
ghost use Rattle.std.specs.Prelude.{◌≡◌, ◌≤◌};
ghost use Rattle.std.specs.List.{list_all};
ghost use Rattle.jlr_machine.specs.Run.{has_room, is_free};
ghost use Rattle.jlr_laws.specs.Deciding.{are_fresh};

use jlr_machine::machine::Machine;
use jlr_machine::object::Object;
use jlr_machine::table::Table;
use jlr_plain_asks::lookups::occupied_cells;
use jlr_plain_collections::collection::distinct;
use jlr_types::Slot;

/// Whether the objects and those to be made are at most the cells.
pub(crate) fn room_for(machine: &Machine, cells: usize) -> bool
    requires { cells ≤ 2 }
    ensures { result ≡ has_room machine.now cells }
{
    if cells == 0 {
        return true;
    }
    occupied_cells(machine.objects.as_slice()) + cells <= machine.objects.len()
}

fn free_at(objects: &Table<Object>, slot: Slot) -> bool
    ensures { result ≡ is_free objects.now slot }
{
    match objects.as_slice().get(slot.number() as usize) {
        Some(place) => place.is_none(),
        None => false,
    }
}

fn all_free(objects: &Table<Object>, slots: &[Slot]) -> bool
    ensures { result ≡ list_all (is_free objects.now) slots.now }
{
    slots.iter().all(|&slot| free_at(objects, slot))
}

/// Whether these are distinct free slots, so many.
pub fn fresh_slots(objects: &Table<Object>, cells: usize, fresh: &[Slot]) -> bool
    ensures { result ≡ are_fresh objects.now cells fresh.now }
{
    fresh.len() == cells && all_free(objects, fresh) && distinct(fresh)
}

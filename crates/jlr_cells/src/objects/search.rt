//! A free cell, and a condemned one.
ghost use Rattle.std.specs.Prelude.{◌≡◌, ◌<◌, false, true, length};
ghost use Rattle.jlr_sets.specs.SlotSets.{is_in, slots_of};

use jlr_sets::cell_set::CellSet;
use jlr_types::Slot;

/// A cell that is not used: the first from this one on, or else the first of all.
pub(crate) fn free_cell(used: &CellSet, from: u32) -> Slot
    requires { length (slots_of used.now) < length used.now }
    ensures within { result < length used.now }
    ensures free { is_in used.now result ≡ false }
{
    match used.next_absent(from) {
        Some(slot) => slot,
        None => match used.next_absent(0) {
            Some(slot) => slot,
            None => unreachable!(),
        },
    }
}

/// A used cell that holds no object: the first from this one on, or else the first of all.
pub(crate) fn condemned_cell(used: &CellSet, occupied: &CellSet, from: u32) -> Slot
    requires places { length used.now ≡ length occupied.now }
    requires some { length (slots_of occupied.now) < length (slots_of used.now) }
    ensures used { is_in used.now result ≡ true }
    ensures vacant { is_in occupied.now result ≡ false }
{
    match used.next_beyond(occupied, from) {
        Some(slot) => slot,
        None => match used.next_beyond(occupied, 0) {
            Some(slot) => slot,
            None => unreachable!(),
        },
    }
}

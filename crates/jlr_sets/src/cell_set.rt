//! A set of the cells of a heap, a bit for each.
ghost use Rattle.std.specs.Prelude.{◌≡◌, ◌^◌, ◌<◌, ◌≤◌, false, true, not, length, replicate, IfOk, slice_set};
ghost use Rattle.jlr_sets.specs.SlotSets.{absent, is_in, beyond, slots_of, FindsFirst};

use crate::slots::SlotSet;
use jlr_types::Slot;
use std::alloc::{AllocError, Global};
use std::marker::Model;

/// A set of the cells of a heap of fixed size.
#[derive(Drop)]
pub struct CellSet {
    set: SlotSet,
    cells: u32,
}

/// For each cell, whether it is in the set.
impl Model for CellSet {
    ghost use Rattle.std.specs.Prelude.{ℕ, List, Bool, true, ◌≡◌, ◌<◌, ◌≤◌, length, take};
    ghost use Rattle.jlr_sets.specs.SlotSets.{is_in};

    ghost Value = { List Bool };

    ghost view = { λ s. take s.cells s.set };

    ghost invariant = { λ s. (s.cells ≤ length s.set) × ((slot : ℕ) → is_in s.set slot ≡ true → slot < s.cells) };
}

impl CellSet {
    /// The empty set of so many cells.
    ///
    /// # Errors
    /// `AllocError` where the room cannot be had.
    pub fn new(alloc: Global, cells: u32) -> Result<Self, AllocError>
        ensures { IfOk result (λ s. s ≡ replicate cells false) }
    {
        Ok(CellSet {
            set: SlotSet::with_cells(alloc, cells)?,
            cells,
        })
    }

    /// How many cells there are, in the set or not.
    pub fn cell_count(&self) -> u32
        ensures { result ≡ length self.now }
    {
        self.cells
    }

    /// Whether a cell is in the set.
    pub fn contains(&self, slot: Slot) -> bool
        requires { slot < length self.now }
        ensures { result ≡ is_in self.now slot }
    {
        self.set.contains(slot.number())
    }

    /// Puts a cell into the set. Answers whether it was not in it.
    pub fn insert(&mut self, slot: Slot) -> bool
        requires { slot < length self.old }
        ensures set { self.new ≡ slice_set self.old slot true }
        ensures added { result ≡ not (is_in self.old slot) }
    {
        self.set.insert(slot.number())
    }

    /// Takes a cell out of the set.
    pub fn remove(&mut self, slot: Slot)
        requires { slot < length self.old }
        ensures { self.new ≡ slice_set self.old slot false }
    {
        self.set.remove(slot.number());
    }

    /// Takes all cells out of the set.
    pub fn clear(&mut self)
        ensures { self.new ≡ replicate (length self.old) false }
    {
        self.set.clear();
    }

    /// Takes the cells of another set in place of its own.
    pub fn assign(&mut self, other: &CellSet)
        requires { length other.now ≡ length self.old }
        ensures { self.new ≡ other.now }
    {
        self.set.assign(&other.set);
    }

    /// A set of slots that has a place for each of the cells takes them in place of its own.
    pub fn copy_into(&self, slots: &mut SlotSet)
        requires { length self.now ≤ length slots.old }
        ensures slots { slots_of slots.new ≡ slots_of self.now }
        ensures places { length slots.new ≡ length slots.old }
    {
        slots.assign(&self.set);
    }

    /// How many cells are in the set.
    pub fn count(&self) -> u32
        ensures { result ≡ length (slots_of self.now) }
    {
        let _cells = self.cells;
        self.set.count() as u32
    }

    /// The first cell of the set that is not below `from`.
    pub fn next_from(&self, from: u32) -> Option<Slot>
        ensures first { FindsFirst self.now from result }
        ensures few { length self.now < 2 ^ 32 }
    {
        let _cells = self.cells;
        match self.set.next_from(from as usize) {
            Some(place) => Some(Slot::new(place as u32)),
            None => None,
        }
    }

    /// The first cell not below `from` that is not in the set.
    pub fn next_absent(&self, from: u32) -> Option<Slot>
        ensures first { FindsFirst (absent self.now) from result }
        ensures few { length self.now < 2 ^ 32 }
    {
        let cells = self.cells;
        match self.set.next_absent(from as usize) {
            Some(place) => {
                if place < cells as usize {
                    return Some(Slot::new(place as u32));
                }
                None
            }
            None => None,
        }
    }

    /// The first cell not below `from` that is in this set and not in the other.
    pub fn next_beyond(&self, other: &CellSet, from: u32) -> Option<Slot>
        ensures first { FindsFirst (beyond self.now other.now) from result }
        ensures few { length self.now < 2 ^ 32 }
    {
        let _cells = self.cells;
        match self.set.next_beyond(&other.set, from as usize) {
            Some(place) => Some(Slot::new(place as u32)),
            None => None,
        }
    }
}

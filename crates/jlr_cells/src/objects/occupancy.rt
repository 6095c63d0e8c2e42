//! The cells that hold an object, and those that are condemned.
ghost use Rattle.std.specs.Prelude.{◌≡◌, ℕ, ◌+◌, ◌<◌, false, true, length, IfOk, slice_set};
ghost use Rattle.jlr_sets.specs.SlotSets.{is_in, slots_of};
ghost use Rattle.jlr_cells.specs.Occupying.{none_occupied, taken};

use crate::objects::search::{condemned_cell, free_cell};
use jlr_sets::cell_set::CellSet;
use jlr_types::Slot;
use std::alloc::{AllocError, Global};
use std::marker::Model;

/// Which cells hold an object, and how many of the others are condemned.
#[derive(Drop)]
pub(crate) struct Occupancy {
    /// The cells that hold an object.
    occupied: CellSet,
    /// The cells that are not free: they hold an object, or are condemned.
    used: CellSet,
    /// How many cells are free.
    free: u32,
    /// How many cells are condemned.
    condemned: u32,
    /// Where a free cell is looked for first: behind the last that was taken.
    next_free: u32,
    /// Where a condemned cell is looked for first: the last that was swept.
    next_condemned: u32,
}

impl Model for Occupancy {
    ghost use Rattle.jlr_cells.specs.Occupying.{AreUsed, Occupied};

    ghost Value = { Occupied };

    ghost view = { λ a. record { places = a.occupied; used = a.used; condemned = a.condemned } };

    ghost invariant = { λ a. AreUsed (record { places = a.occupied; used = a.used; condemned = a.condemned }) a.free };
}

impl Occupancy {
    /// So many cells, all free.
    ///
    /// # Errors
    /// `AllocError` where there is no memory for them.
    pub(crate) fn new(alloc: Global, cells: u32) -> Result<Self, AllocError>
        ensures { IfOk result (λ o. o ≡ none_occupied cells) }
    {
        Ok(Occupancy {
            occupied: CellSet::new(alloc, cells)?,
            used: CellSet::new(alloc, cells)?,
            free: cells,
            condemned: 0,
            next_free: 0,
            next_condemned: 0,
        })
    }

    /// How many cells there are.
    pub(crate) fn cell_count(&self) -> u32
        ensures { result ≡ length self.now.places }
    {
        self.occupied.cell_count()
    }

    /// Whether a cell holds an object.
    pub(crate) fn is_occupied(&self, slot: Slot) -> bool
        requires { slot < length self.now.places }
        ensures { result ≡ is_in self.now.places slot }
    {
        self.occupied.contains(slot)
    }

    /// The cells that hold an object.
    pub(crate) fn occupied(&self) -> &CellSet
        ensures { result.now ≡ self.now.places }
    {
        &self.occupied
    }

    /// How many cells are free: they hold no object, and are not condemned.
    pub(crate) fn free_count(&self) -> u32
        ensures { result + taken self.now + self.now.condemned ≡ length self.now.places }
    {
        self.free
    }

    /// How many cells are condemned.
    pub(crate) fn condemned_count(&self) -> u32
        ensures { result ≡ self.now.condemned }
    {
        self.condemned
    }

    /// How many cells hold no object: they are free, or condemned.
    pub(crate) fn vacant_count(&self) -> u32
        ensures { result + taken self.now ≡ length self.now.places }
    {
        self.free + self.condemned
    }

    /// A free cell holds an object from now on.
    pub(crate) fn take(&mut self) -> Slot
        requires { taken self.old + self.old.condemned < length self.old.places }
        ensures within { result < length self.old.places }
        ensures vacant { is_in self.old.places result ≡ false }
        ensures taken { self.new.places ≡ slice_set self.old.places result true }
        ensures used { self.new.used ≡ slice_set self.old.used result true }
        ensures condemned { self.new.condemned ≡ self.old.condemned }
    {
        let slot = free_cell(&self.used, self.next_free);
        self.used.insert(slot);
        self.occupied.insert(slot);
        self.free -= 1;
        self.next_free = slot.number();
        slot
    }

    /// The cells of a set hold their objects still, and all others hold none: those that did are condemned, beside
    /// those that were.
    pub(crate) fn keep(&mut self, kept: &CellSet)
        requires places { length kept.now ≡ length self.old.places }
        requires objects { (s : ℕ) → is_in kept.now s ≡ true → is_in self.old.places s ≡ true }
        ensures places { self.new.places ≡ kept.now }
        ensures used { self.new.used ≡ self.old.used }
        ensures condemned { length (slots_of kept.now) + self.new.condemned ≡ taken self.old + self.old.condemned }
    {
        self.condemned = self.used.cell_count() - self.free - kept.count();
        self.occupied.assign(kept);
    }

    /// All condemned cells become free.
    pub(crate) fn sweep_all(&mut self)
        ensures places { self.new.places ≡ self.old.places }
        ensures used { self.new.used ≡ self.old.places }
        ensures condemned { self.new.condemned ≡ 0 }
    {
        self.used.assign(&self.occupied);
        self.free += self.condemned;
        self.condemned = 0;
    }

    /// A condemned cell becomes free. Answers which.
    pub(crate) fn sweep_one(&mut self) -> Slot
        requires { 0 < self.old.condemned }
        ensures vacant { is_in self.old.places result ≡ false }
        ensures swept { is_in self.old.used result ≡ true }
        ensures places { self.new.places ≡ self.old.places }
        ensures used { self.new.used ≡ slice_set self.old.used result false }
        ensures condemned { self.new.condemned + 1 ≡ self.old.condemned }
    {
        let slot = condemned_cell(&self.used, &self.occupied, self.next_condemned);
        self.used.remove(slot);
        self.free += 1;
        self.condemned -= 1;
        self.next_condemned = slot.number();
        slot
    }
}

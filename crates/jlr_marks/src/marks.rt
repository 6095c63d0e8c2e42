//! Marks.
ghost use Rattle.std.specs.Prelude.{◌≡◌, ◌↔◌, ◌+◌, ◌<◌, ◌≤◌, ◌++◌, ◌∷◌, [], false, true, cond, length, IfOk};
ghost use Rattle.std.specs.Prelude.{slice_get, slice_set, IfNone, IfSome, IsPermutation, None, Some, replicate};
ghost use Rattle.jlr_machine.specs.Choices.{collecting, kept_by, pended_by};
ghost use Rattle.jlr_machine.specs.Objects.{◌∈◌};
ghost use Rattle.jlr_sets.specs.SlotSets.{slots_of};
ghost use Rattle.jlr_marks.specs.Marking.{IsMarked, is_marked, marked, place, place_in, upcoming};

use crate::part::Part;
use jlr_machine::choice::Choice;
use jlr_sets::cell_set::CellSet;
use jlr_types::Slot;
use std::alloc::{AllocError, Global};
use std::marker::Model;

/// A mark for each cell, a stack of the marked cells that are grey, and a list of those that are discovered. An array
/// in progress is grey, and does not stand on the stack.
#[derive(Drop)]
pub struct Marks {
    bits: CellSet,
    grey: Vec<Slot>,
    part: Option<Part>,
    discovered: Vec<Slot>,
}

impl Model for Marks {
    ghost use Rattle.std.specs.Prelude.{◌+◌, ◌++◌, ◌≤◌, count_by, length, vec_capacity};
    ghost use Rattle.jlr_marks.specs.Marking.{AreGrey, Marking, slots_begun};

    ghost Value = { Marking };

    ghost view = { λ m. record {
      bits = m.bits;
      grey = slots_begun m.part ++ m.grey.items;
      discovered = m.discovered.items;
      part = m.part;
    } };

    ghost invariant = { λ m. (length (slots_begun m.part ++ m.grey.items) + length m.discovered.items ≤ count_by
        (λ b. b) m.bits) × (length m.bits ≤ vec_capacity m.grey) × (length m.bits ≤ vec_capacity m.discovered)
        × AreGrey m.bits (slots_begun m.part ++ m.grey.items) };
}

impl Marks {
    /// All cells are white. All room is made at once.
    ///
    /// # Errors
    /// `AllocError` where the room cannot be had.
    pub fn new(alloc: Global, cells: u32) -> Result<Self, AllocError>
        ensures bits { IfOk result (λ m. m.bits ≡ replicate cells false) }
        ensures grey { IfOk result (λ m. m.grey ≡ []) }
        ensures discovered { IfOk result (λ m. m.discovered ≡ []) }
        ensures part { IfOk result (λ m. m.part ≡ None) }
    {
        Ok(Marks {
            bits: CellSet::new(alloc, cells)?,
            grey: Vec::with_capacity(alloc, cells as usize)?,
            part: None,
            discovered: Vec::with_capacity(alloc, cells as usize)?,
        })
    }

    /// Whether a cell is marked: it is grey or black.
    pub fn is_marked(&self, slot: Slot) -> bool
        requires { slot < length self.now.bits }
        ensures { result ≡ is_marked self.now slot }
    {
        self.bits.contains(slot)
    }

    /// Marks a cell. If it was white before, it is grey then.
    pub fn shade(&mut self, slot: Slot)
        requires { slot < length self.old.bits }
        ensures bits { self.new.bits ≡ slice_set self.old.bits slot true }
        ensures grey { self.new.grey ≡ cond (is_marked self.old slot) self.old.grey (self.old.grey ++ slot ∷ []) }
        ensures discovered { self.new.discovered ≡ self.old.discovered }
        ensures part { self.new.part ≡ self.old.part }
    {
        if self.bits.insert(slot) {
            self.grey.push_reserved(slot);
        }
    }

    /// Marks a cell. If it was white before, it is black then: nobody follows its edges.
    pub fn blacken(&mut self, slot: Slot)
        requires { slot < length self.old.bits }
        ensures bits { self.new.bits ≡ slice_set self.old.bits slot true }
        ensures grey { self.new.grey ≡ self.old.grey }
        ensures discovered { self.new.discovered ≡ self.old.discovered }
        ensures part { self.new.part ≡ self.old.part }
    {
        self.bits.insert(slot);
    }

    /// A cell is discovered: the last of them. There is room where a marked cell is neither grey nor discovered, as one
    /// that was just taken off the grey ones.
    pub fn discover(&mut self, slot: Slot)
        requires { length self.old.grey + length self.old.discovered < marked self.old }
        ensures bits { self.new.bits ≡ self.old.bits }
        ensures grey { self.new.grey ≡ self.old.grey }
        ensures discovered { self.new.discovered ≡ self.old.discovered ++ slot ∷ [] }
        ensures part { self.new.part ≡ self.old.part }
    {
        let _ = self.discovered.push(slot);
    }

    /// Whether a cell is grey.
    pub fn has_grey(&self) -> bool
        ensures { result ≡ false ↔ (self.now.grey ≡ []) }
    {
        self.part.is_some() || !self.grey.is_empty()
    }

    /// The grey cell that comes next, if there is one: the array in progress, or else the last that was shaded.
    pub fn next_grey(&self) -> Option<Slot>
        ensures { result ≡ upcoming self.now }
    {
        match self.part {
            Some(part) => Some(part.slot),
            None => self.grey.last().copied(),
        }
    }

    /// Before which place the elements at a slot were followed: 0 but for the array in progress.
    pub fn place(&self, slot: Slot) -> u16
        ensures { result ≡ place self.now slot }
    {
        match self.part {
            Some(part) => place_at(part, slot),
            None => 0,
        }
    }

    /// The grey cell that comes next is grey no more, if there is one, and is black then. No array is in progress.
    pub fn take_grey(&mut self) -> Option<Slot>
        ensures taken { result ≡ upcoming self.old }
        ensures bits { self.new.bits ≡ self.old.bits }
        ensures grey { IfSome result (λ slot. IsPermutation self.old.grey (slot ∷ self.new.grey)) }
        ensures once { IfSome result (λ slot. ¬ (slot ∈ self.new.grey)) }
        ensures none { IfNone result ((self.old.grey ≡ []) × (self.new.grey ≡ [])) }
        ensures discovered { self.new.discovered ≡ self.old.discovered }
        ensures part { self.new.part ≡ None }
        ensures room { IfSome result (λ _. length self.new.grey + length self.new.discovered < marked self.new) }
    {
        match self.part {
            Some(part) => {
                self.part = None;
                Some(part.slot)
            }
            None => self.grey.pop(),
        }
    }

    /// A marked cell that is not grey is grey again, an array in progress, and comes next: of its elements those before
    /// the place were followed. There is room where a marked cell is neither grey nor discovered.
    pub fn resume_at(&mut self, slot: Slot, from: u16)
        requires marked { IsMarked self.old slot }
        requires black { ¬ (slot ∈ self.old.grey) }
        requires free { self.old.part ≡ None }
        requires room { length self.old.grey + length self.old.discovered < marked self.old }
        ensures bits { self.new.bits ≡ self.old.bits }
        ensures grey { self.new.grey ≡ slot ∷ self.old.grey }
        ensures discovered { self.new.discovered ≡ self.old.discovered }
        ensures part { self.new.part ≡ Some (record { slot = slot; place = from }) }
    {
        self.part = Some(Part { slot, place: from });
    }

    /// The marked cells.
    pub fn marked(&self) -> &CellSet
        ensures { result.now ≡ self.now.bits }
    {
        &self.bits
    }

    /// A collection that kept nothing so far keeps all marked cells.
    pub fn keep_all(&self, choice: &mut Choice)
        requires cells { length self.now.bits ≤ choice.old.cells }
        requires none { kept_by choice.old ≡ [] }
        ensures { choice.new ≡ collecting choice.old (slots_of self.now.bits) (pended_by choice.old) }
    {
        choice.keep_all(&self.bits);
    }

    /// How many cells are discovered.
    pub fn discovered_count(&self) -> usize
        ensures { result ≡ length self.now.discovered }
    {
        self.discovered.len()
    }

    /// A discovered cell, by its place in their list, if there are so many.
    pub fn discovered_at(&self, place: usize) -> Option<Slot>
        ensures { result ≡ slice_get self.now.discovered place }
    {
        self.discovered.get(place).copied()
    }

    /// Every cell is white.
    pub fn reset(&mut self)
        ensures bits { self.new.bits ≡ replicate (length self.old.bits) false }
        ensures grey { self.new.grey ≡ [] }
        ensures discovered { self.new.discovered ≡ [] }
        ensures part { self.new.part ≡ None }
    {
        self.bits.clear();
        self.grey.clear();
        self.part = None;
        self.discovered.clear();
    }
}

/// The place that a part comes to, if it is of this slot, or else 0.
fn place_at(part: Part, slot: Slot) -> u16
    ensures { result ≡ place_in (Some part) slot }
{
    if part.slot == slot { part.place } else { 0 }
}

//! The elements of an array.
ghost use Rattle.std.specs.Prelude.{◌≡◌, ◌<◌, ◌≤◌, ℕ, Some, None, IfOk, length, map, option_map, replicate};
ghost use Rattle.std.specs.Prelude.{slice_get, slice_set};
ghost use Rattle.jlr_types.specs.declared.FieldValue.TheVariants.{Ref};
ghost use Rattle.jlr_machine.specs.Objects.{at};
ghost use Rattle.jlr_cells.specs.Nulls.{link_of};

use crate::links::{number_of, slot_of};
use jlr_machine::object::Elements as PlainElements;
use jlr_types::{FieldValue, Length, Slot};
use std::alloc::{AllocError, Global};
use std::marker::Model;

/// The elements of an array, each a slot or null: 1 to 4,096 of them, four bytes each.
#[derive(Drop)]
pub struct Elements {
    slots: Vec<u32>,
}

impl Model for Elements {
    ghost use Rattle.std.specs.Prelude.{◌≤◌, List, Option, ℕ, length, map};
    ghost use Rattle.jlr_cells.specs.Nulls.{link_of};

    ghost Value = { List (Option ℕ) };

    ghost view = { λ a. map link_of a.slots.items };

    ghost invariant = { λ a. (1 ≤ length a.slots.items) × (length a.slots.items ≤ 4096) };
}

impl Elements {
    /// So many elements, all null.
    ///
    /// # Errors
    /// `AllocError` where there is no memory for them.
    #[tactic(auto, using(crate::proofs::Parts::null_elements))]
    pub fn new(alloc: Global, length: Length) -> Result<Self, AllocError>
        ensures { IfOk result (λ elements. elements ≡ replicate length None) }
    {
        let count = length.number();
        Ok(Elements {
            slots: vec![in alloc; u32::MAX; count as usize]?,
        })
    }

    /// How many elements there are.
    pub fn count(&self) -> usize
        ensures count { result ≡ length self.now }
        ensures some { 1 ≤ result }
        ensures few { result ≤ 4096 }
    {
        self.slots.len()
    }

    /// What an element refers to.
    pub fn get(&self, place: usize) -> Option<Slot>
        requires { place < length self.now }
        ensures { result ≡ at self.now place }
    {
        slot_of(self.slots[place])
    }

    /// What an element holds, if there is one of that number.
    pub(crate) fn value(&self, place: usize) -> Option<FieldValue>
        ensures { result ≡ option_map Ref (slice_get self.now place) }
    {
        match self.slots.get(place) {
            Some(number) => Some(FieldValue::Ref(slot_of(*number))),
            None => None,
        }
    }

    /// An element refers to something else. Answers what it referred to.
    #[tactic(auto, using(crate::proofs::Parts::set_mapped))]
    pub(crate) fn set(&mut self, place: usize, target: Option<Slot>) -> Option<Slot>
        requires place { place < length self.old }
        requires few { (s : ℕ) → target ≡ Some s → s < 4294967295 }
        ensures old { slice_get self.old place ≡ Some result }
        ensures new { self.new ≡ slice_set self.old place target }
    {
        let old = slot_of(self.slots[place]);
        self.slots[place] = number_of(target);
        old
    }

    /// The elements as plain data.
    ///
    /// # Errors
    /// `AllocError` where there is no memory for them.
    pub(crate) fn image(&self, alloc: Global) -> Result<PlainElements, AllocError>
        ensures { IfOk result (λ elements. elements ≡ self.now) }
    {
        let mut slots = Vec::with_capacity(alloc, self.count())?;
        for place in 0..self.count() {
            slots.push_reserved(self.get(place));
        }
        Ok(PlainElements::from_vec(slots).unwrap())
    }
}

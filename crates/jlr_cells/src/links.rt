//! What four fields of plain objects refer to, apart from the fields themselves.
ghost use Rattle.std.specs.Prelude.{◌≡◌, ℕ, ◌<◌, Some, length, map, slice_set};
ghost use Rattle.jlr_machine.specs.Objects.{at};
ghost use Rattle.jlr_machine.specs.Edges.{slot_in};
ghost use Rattle.jlr_cells.specs.Links.{four_nulls};
ghost use Rattle.jlr_cells.specs.Nulls.{link_of};

use crate::elements::Elements;
use jlr_links::column::Blank;
use jlr_types::{FieldValue, Slot};
use std::marker::Model;

/// Stands for a link to no object.
const NULL: u32 = u32::MAX;

/// For each of four fields of a plain object, what it refers to. An integer refers to nothing, and no field does.
#[derive(Drop)]
pub struct Links {
    slots: [u32; 4],
}

impl Model for Links {
    ghost use Rattle.std.specs.Prelude.{◌≡◌, List, Option, ℕ, length, map};
    ghost use Rattle.jlr_cells.specs.Nulls.{link_of};

    ghost Value = { List (Option ℕ) };

    ghost view = { λ a. map link_of a.slots };

    ghost invariant = { λ a. length a.slots ≡ 4 };
}

impl Blank for Links {
    ghost nothing = { four_nulls };

    fn blank() -> Links {
        Links::none()
    }
}

impl Links {
    /// No field refers to anything.
    pub(crate) fn none() -> Self
        ensures { result ≡ four_nulls }
    {
        Links { slots: [NULL; 4] }
    }

    /// How many links there are: four.
    pub fn count(&self) -> usize
        ensures { result ≡ length self.now }
    {
        let slots: &[u32] = &self.slots;
        slots.len()
    }

    /// What a field refers to.
    pub fn get(&self, place: usize) -> Option<Slot>
        requires { place < length self.now }
        ensures { result ≡ at self.now place }
    {
        link_at(&self.slots, place)
    }

    /// A field refers to something else.
    pub(crate) fn set(&mut self, place: usize, target: Option<Slot>)
        requires place { place < 4 }
        requires few { (s : ℕ) → target ≡ Some s → s < 4294967295 }
        ensures { self.new ≡ slice_set self.old place target }
    {
        self.slots[place] = number_of(target);
    }
}

fn link_at(slots: &[u32], place: usize) -> Option<Slot>
    requires { place < length slots.now }
    ensures { result ≡ at (map link_of slots.now) place }
{
    slot_of(slots[place])
}

/// The slot of a number; none, where it stands for null.
pub(crate) fn slot_of(number: u32) -> Option<Slot>
    ensures { result ≡ link_of number }
{
    if number < NULL {
        Some(Slot::new(number))
    } else {
        None
    }
}

pub(crate) fn number_of(target: Option<Slot>) -> u32
    requires { (s : ℕ) → target ≡ Some s → s < 4294967295 }
    ensures { link_of result ≡ target }
{
    match target {
        Some(slot) => slot.number(),
        None => NULL,
    }
}

/// What a field of this value refers to.
pub(crate) fn target_of(value: &FieldValue) -> Option<Slot>
    ensures { result ≡ slot_in value.now }
{
    match value {
        FieldValue::Int(_) => None,
        FieldValue::Ref(target) => *target,
    }
}

/// What a visit of an object that is no plain one with fields tells of its strong edges.
#[derive(Drop)]
pub enum Visited<'a> {
    /// It is an array of these elements.
    Array(&'a Elements),
    /// It is of another kind. It leads to one object, or to none; a queue to its members besides.
    Other {
        /// The queue that a reference may still be added to, or the cleanable of a guard.
        next: Option<Slot>,
    },
}

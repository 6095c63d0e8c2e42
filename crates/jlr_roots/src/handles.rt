//! The handles of one mutator.
ghost use Rattle.std.specs.Prelude.{◌≡◌, ◌+◌, ◌<◌, ◌≤◌, IfOk, IfNone, IfSome, IsTrue, None, is_none, is_some};
ghost use Rattle.std.specs.Prelude.{length, position, replicate};
ghost use Rattle.jlr_machine.specs.Objects.{at, empty_at, set_at};
ghost use Rattle.jlr_machine.specs.Calls.{no_handles};
ghost use Rattle.jlr_roots.specs.HandleTable.{IsHandleTable, has_handle_room, lowest_free};

use jlr_machine::copy::copy_slice;
use jlr_machine::table::Table;
use jlr_types::{Handle, Slot};
use std::alloc::{AllocError, Global};
use std::marker::Model;

/// The slots that a mutator's handles stand for, by number.
#[derive(Drop)]
pub(crate) struct Handles {
    slots: Vec<Option<Slot>>,
}

impl Model for Handles {
    ghost use Rattle.std.specs.Prelude.{List, Option, ℕ};
    ghost use Rattle.jlr_roots.specs.HandleTable.{IsHandleTable};

    ghost Value = { List (Option ℕ) };

    ghost view = { λ a. a.slots.items };

    ghost invariant = { λ a. IsHandleTable a.slots.items };
}

impl Handles {
    pub(crate) fn new(alloc: Global) -> Result<Self, AllocError>
        ensures { IfOk result (λ handles. handles ≡ no_handles) }
    {
        let mut slots = Vec::new(alloc);
        slots.resize(251, None)?;
        Ok(Handles { slots })
    }

    pub(crate) fn clear(&mut self)
        ensures { self.new ≡ no_handles }
    {
        empty(&mut self.slots);
    }

    pub(crate) fn get(&self, handle: Handle) -> Option<Slot>
        ensures { result ≡ at self.now handle }
    {
        match self.slots.get(handle.number() as usize) {
            Some(slot) => *slot,
            None => None,
        }
    }

    pub(crate) fn image(&self, alloc: Global) -> Result<Table<Slot>, AllocError>
        ensures { IfOk result (λ handles. handles ≡ self.now) }
    {
        Ok(Table::from_vec(copy_slice(alloc, &self.slots)?))
    }

    pub(crate) fn has_room(&self) -> bool
        ensures { result ≡ has_handle_room self.now }
    {
        first_free(&self.slots).is_some()
    }

    /// Holds a slot by the lowest free handle, if there is one.
    pub(crate) fn put(&mut self, slot: Slot) -> Option<Handle>
        ensures room { is_some result ≡ has_handle_room self.old }
        ensures none { IfNone result (self.new ≡ self.old) }
        ensures lowest { IfSome result (λ handle. handle ≡ lowest_free self.old) }
        ensures held { IfSome result (λ handle. self.new ≡ set_at self.old handle slot) }
        ensures table { IsHandleTable self.new }
    {
        match first_free(&self.slots) {
            None => None,
            Some(number) => {
                self.slots[number] = Some(slot);
                Some(Handle::new(number as u8))
            }
        }
    }

    pub(crate) fn remove(&mut self, handle: Handle)
        requires { IsTrue (is_some (at self.old handle)) }
        ensures removed { self.new ≡ empty_at self.old handle }
        ensures table { IsHandleTable self.new }
    {
        self.slots[handle.number() as usize] = None;
    }
}

fn empty(places: &mut [Option<Slot>])
    ensures { places.new ≡ replicate (length places.old) None }
{
    for place in places.iter_mut() {
        *place = None;
    }
}

/// The lowest free handle.
fn first_free(places: &[Option<Slot>]) -> Option<usize>
    requires { IsHandleTable places.now }
    ensures room { is_some result ≡ has_handle_room places.now }
    ensures lowest { IfSome result (λ number. (number ≡ lowest_free places.now) × (1 ≤ number) × (number < 251)) }
{
    match first_none(&places[1..]) {
        Some(after_null) => Some(after_null + 1),
        None => None,
    }
}

fn first_none(places: &[Option<Slot>]) -> Option<usize>
    ensures { result ≡ position is_none places.now }
{
    places.iter().position(|place| place.is_none())
}

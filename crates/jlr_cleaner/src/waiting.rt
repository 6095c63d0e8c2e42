//! The actions that wait to be taken up, by the places of their cleanables.
ghost use Rattle.std.specs.Prelude.{◌≡◌, ◌<◌, IfOk, None, length, replicate};
ghost use Rattle.jlr_machine.specs.Objects.{at, empty_at, set_at};

use jlr_links::column::Column;
use jlr_types::{ActionNo, Slot};
use std::alloc::{AllocError, Global};
use std::marker::Model;

/// At each place the action that waits there, if one does. A place is the slot of the action's cleanable.
#[derive(Drop)]
pub(crate) struct Waiting {
    actions: Column<Option<ActionNo>>,
}

impl Model for Waiting {
    ghost use Rattle.std.specs.Prelude.{List, Option, ℕ};

    ghost Value = { List (Option ℕ) };

    ghost view = { λ a. a.actions };
}

impl Waiting {
    /// Nothing waits. There is a place for each cell.
    pub(crate) fn new(alloc: Global, cells: u32) -> Result<Self, AllocError>
        ensures { IfOk result (λ waiting. waiting ≡ replicate cells None) }
    {
        Ok(Waiting {
            actions: Column::new(alloc, cells)?,
        })
    }

    /// How many places there are.
    pub(crate) fn len(&self) -> usize
        ensures { result ≡ length self.now }
    {
        self.actions.len()
    }

    /// The action that waits at a place, if one does.
    pub(crate) fn at(&self, place: Slot) -> Option<ActionNo>
        ensures { result ≡ at self.now place }
    {
        match self.actions.get(place.number() as usize) {
            Some(action) => *action,
            None => None,
        }
    }

    /// From now on this action waits at a place.
    pub(crate) fn put(&mut self, place: Slot, action: ActionNo)
        requires { place < length self.old }
        ensures { self.new ≡ set_at self.old place action }
    {
        self.actions[place.number() as usize] = Some(action);
    }

    /// Nothing waits at a place any more.
    pub(crate) fn clear(&mut self, place: Slot)
        requires { place < length self.old }
        ensures { self.new ≡ empty_at self.old place }
    {
        self.actions[place.number() as usize] = None;
    }
}

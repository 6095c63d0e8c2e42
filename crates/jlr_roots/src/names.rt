//! The names of objects.
ghost use Rattle.std.specs.Prelude.{◌≡◌, ◌≤◌, IfOk, None, OnErr, OnOk, [], length, slice_get};
ghost use Rattle.jlr_machine.specs.Lookups.{bound, slot_bound, unbound, bound_names};
ghost use Rattle.jlr_roots.specs.Naming.{bindings_of, named};

use indexmap::IndexMap;
use jlr_machine::items::Items;
use jlr_machine::machine::Binding;
use jlr_machine::text::Name;
use jlr_types::Slot;
use std::alloc::{AllocError, Global};
use std::marker::Model;

/// The most names that may be bound.
pub const NAME_LIMIT: usize = 256;

/// Names and the slots that they stand for, in order of binding. Each slot is a root.
#[derive(Drop)]
pub struct Names {
    slots: IndexMap<Name, Slot>,
}

impl Model for Names {
    ghost use Rattle.std.specs.Prelude.{List};
    ghost use Rattle.jlr_machine.specs.declared.machine.Binding.{Binding};
    ghost use Rattle.jlr_roots.specs.Naming.{bindings_of};

    ghost Value = { List Binding };

    ghost view = { λ a. bindings_of a.slots.entries };
}

impl Names {
    /// No name. The room for as many as may be bound is made at once.
    ///
    /// # Errors
    /// `AllocError` where the room cannot be had.
    pub fn new(alloc: Global) -> Result<Self, AllocError>
        ensures { IfOk result (λ names. names ≡ []) }
    {
        Ok(Names {
            slots: IndexMap::with_capacity(alloc, NAME_LIMIT)?,
        })
    }

    /// How many names there are.
    pub fn len(&self) -> usize
        ensures { result ≡ length self.now }
    {
        self.slots.len()
    }

    /// The slot that a name stands for, if it is bound.
    pub fn find(&self, name: &Name) -> Option<Slot>
        ensures { result ≡ slot_bound self.now name.now }
    {
        self.slots.get(name).copied()
    }

    /// From now on a name stands for this slot. An old name keeps its place, and takes no memory; a new one comes last.
    ///
    /// # Errors
    /// `AllocError` where the name is new and there is no memory for it. Nothing has changed then.
    pub fn bind(&mut self, name: &Name, slot: Slot) -> Result<(), AllocError>
        ensures ok { OnOk result (self.new ≡ bound self.old name.now slot) }
        ensures err { OnErr result ((self.new ≡ self.old) × (slot_bound self.old name.now ≡ None)) }
    {
        if self.slots.insert(name.copy(), slot).is_err() {
            return Err(AllocError);
        }
        Ok(())
    }

    /// A name stands for nothing any more. Where it is not bound, nothing changes. The names behind it keep their
    /// order.
    pub fn unbind(&mut self, name: &Name)
        ensures { self.new ≡ unbound self.old name.now }
    {
        let _count = self.slots.len();
        self.slots.shift_remove(name);
    }

    /// The slot that the name at a place stands for, if there are more names than that.
    pub fn slot_at(&self, place: usize) -> Option<Slot>
        ensures { result ≡ slice_get (named self.now) place }
    {
        match self.slots.get_index(place) {
            Some(binding) => Some(slot_of(binding)),
            None => None,
        }
    }

    /// The bindings as plain data.
    ///
    /// # Errors
    /// `AllocError` where there is no memory for them.
    pub fn image(&self, alloc: Global) -> Result<Items<Binding>, AllocError>
        ensures { IfOk result (λ names. names ≡ self.now) }
    {
        Ok(Items::from_vec(copy_bindings(alloc, &self.slots)?))
    }

    /// The names alone, in order of binding.
    ///
    /// # Errors
    /// `AllocError` where there are names and no memory for a copy of them.
    pub fn names(&self, alloc: Global) -> Result<Items<Name>, AllocError>
        ensures names { IfOk result (λ names. names ≡ bound_names self.now) }
        ensures some { OnErr result (1 ≤ length self.now) }
    {
        Ok(Items::from_vec(copy_names(alloc, &self.slots)?))
    }
}

fn slot_of(binding: (&Name, &Slot)) -> Slot
    ensures { result ≡ binding.entry.1.now }
{
    let (_, slot) = binding;
    *slot
}

fn copy_bindings(alloc: Global, slots: &IndexMap<Name, Slot>) -> Result<Vec<Binding>, AllocError>
    ensures { IfOk result (λ copies. copies.items ≡ bindings_of slots.now.entries) }
{
    let mut copies = Vec::with_capacity(alloc, slots.len())?;
    for (name, slot) in slots.iter() {
        copies.push(Binding {
            name: name.copy(),
            slot: *slot,
        })?;
    }
    Ok(copies)
}

fn copy_names(alloc: Global, slots: &IndexMap<Name, Slot>) -> Result<Vec<Name>, AllocError>
    ensures names { IfOk result (λ names. names.items ≡ bound_names (bindings_of slots.now.entries)) }
    ensures some { OnErr result (1 ≤ length slots.now.entries) }
{
    if slots.is_empty() {
        return Ok(Vec::new(alloc));
    }
    let mut names = Vec::with_capacity(alloc, slots.len())?;
    for name in slots.keys() {
        names.push(name.copy())?;
    }
    Ok(names)
}

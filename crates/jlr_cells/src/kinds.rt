//! The kinds of the objects, by slot.
ghost use Rattle.std.specs.Prelude.{◌≡◌, ℕ, ◌<◌, ◌≤◌, IfOk, MatchOption, None, Some, false, length, replicate};
ghost use Rattle.std.specs.Prelude.{slice_index_or, slice_set, true};
ghost use Rattle.jlr_cells.specs.Kinds.{IsNoArray, IsNoCleanable, shown_kind};
ghost use Rattle.jlr_sets.specs.SlotSets.{is_in};

use crate::shape::Kind;
use jlr_sets::cell_set::CellSet;
use jlr_types::{RefKind, Slot};
use std::alloc::{AllocError, Global};
use std::marker::Model;

/// What lies at a slot: one byte, where an optional kind takes three.
#[derive(Clone, Copy)]
enum Label {
    Nothing,
    Plain,
    Array,
    Soft,
    Weak,
    Phantom,
    Queue,
    Cleaner,
    Cleanable,
    Guard,
}

/// Of which kind what lies at a slot is, by slot, side by side; and sets in which the cleanables and the arrays are, so
/// that they are found without a pass over all slots.
#[derive(Drop)]
pub(crate) struct Kinds {
    labels: Vec<Label>,
    cleanables: CellSet,
    /// The arrays, and some slots at which none lies any more.
    arrays: CellSet,
}

impl Model for Kinds {
    ghost use Rattle.std.specs.Prelude.{List, Option, map};
    ghost use Rattle.jlr_cells.specs.declared.shape.Kind.{Kind};
    ghost use Rattle.jlr_cells.specs.Kinds.{AreFound, shown_kind};

    ghost Value = { List (Option Kind) };

    ghost view = { λ a. map shown_kind a.labels.items };

    ghost invariant = { λ a. AreFound (map shown_kind a.labels.items) a.cleanables a.arrays };
}

impl Kinds {
    /// Nothing lies at any of so many slots.
    ///
    /// # Errors
    /// `AllocError` where there is no memory for them.
    pub(crate) fn new(alloc: Global, count: u32) -> Result<Self, AllocError>
        ensures { IfOk result (λ kinds. kinds ≡ replicate count None) }
    {
        Ok(Kinds {
            labels: vec![in alloc; Label::Nothing; count as usize]?,
            cleanables: CellSet::new(alloc, count)?,
            arrays: CellSet::new(alloc, count)?,
        })
    }

    /// Of which kind what lies at a slot is, if anything does.
    pub(crate) fn get(&self, slot: Slot) -> Option<Kind>
        ensures { result ≡ slice_index_or self.now slot None }
    {
        match self.labels.get(slot.number() as usize) {
            Some(label) => kind_of(*label),
            None => None,
        }
    }

    /// Of which kind what lies at one of their slots is, if anything does.
    pub(crate) fn at(&self, slot: Slot) -> Option<Kind>
        requires { slot < length self.now }
        ensures { result ≡ slice_index_or self.now slot None }
    {
        kind_of(self.labels[slot.number() as usize])
    }

    /// Something of another kind lies at a slot.
    pub(crate) fn set(&mut self, slot: Slot, kind: Option<Kind>)
        requires { slot < length self.old }
        ensures { self.new ≡ slice_set self.old slot kind }
    {
        self.labels[slot.number() as usize] = label_of(kind);
        note_cleanable(&mut self.cleanables, slot, kind);
        note_array(&mut self.arrays, slot, kind);
    }

    /// A slot not below `from` such that no cleanable is between; or none, where there is no cleanable from there on.
    pub(crate) fn next_cleanable(&self, from: u32) -> Option<Slot>
        ensures { MatchOption result ((s : ℕ) → from ≤ s → IsNoCleanable self.now s)
            (λ slot. (from ≤ slot) × (slot < length self.now)
            × ((s : ℕ) → from ≤ s → s < slot → IsNoCleanable self.now s)) }
    {
        self.cleanables.next_from(from)
    }

    /// A slot not below `from` outside a set, such that no array is between outside the set; or none, where there is no
    /// array outside the set from there on.
    pub(crate) fn next_array(&self, kept: &CellSet, from: u32) -> Option<Slot>
        ensures { MatchOption result ((s : ℕ) → from ≤ s → is_in kept.now s ≡ false → IsNoArray self.now s)
            (λ slot. (from ≤ slot) × (slot < length self.now) × (is_in kept.now slot ≡ false)
            × ((s : ℕ) → from ≤ s → s < slot → is_in kept.now s ≡ false → IsNoArray self.now s)) }
    {
        self.arrays.next_beyond(kept, from)
    }
}

/// A slot is in the set where an array lies there, and it is not where nothing does.
fn note_array(arrays: &mut CellSet, slot: Slot, kind: Option<Kind>)
    requires { slot < length arrays.old }
    ensures array { kind ≡ Some Kind.Array → is_in arrays.new slot ≡ true }
    ensures others { (s : ℕ) → (s ≡ slot → ⊥) → is_in arrays.new s ≡ is_in arrays.old s }
    ensures places { length arrays.new ≡ length arrays.old }
{
    match kind {
        Some(Kind::Array) => {
            arrays.insert(slot);
        }
        None => arrays.remove(slot),
        _ => {}
    }
}

/// A slot is in the set where a cleanable lies there, and else it is not.
fn note_cleanable(cleanables: &mut CellSet, slot: Slot, kind: Option<Kind>)
    requires { slot < length cleanables.old }
    ensures cleanable { kind ≡ Some Kind.Cleanable → is_in cleanables.new slot ≡ true }
    ensures others { (s : ℕ) → (s ≡ slot → ⊥) → is_in cleanables.new s ≡ is_in cleanables.old s }
    ensures places { length cleanables.new ≡ length cleanables.old }
{
    match kind {
        Some(Kind::Cleanable) => {
            cleanables.insert(slot);
        }
        _ => cleanables.remove(slot),
    }
}

/// The kind that a label stands for.
fn kind_of(label: Label) -> Option<Kind>
    ensures { result ≡ shown_kind label }
{
    match label {
        Label::Nothing => None,
        Label::Plain => Some(Kind::Plain),
        Label::Array => Some(Kind::Array),
        Label::Soft => Some(Kind::Reference(RefKind::Soft)),
        Label::Weak => Some(Kind::Reference(RefKind::Weak)),
        Label::Phantom => Some(Kind::Reference(RefKind::Phantom)),
        Label::Queue => Some(Kind::Queue),
        Label::Cleaner => Some(Kind::Cleaner),
        Label::Cleanable => Some(Kind::Cleanable),
        Label::Guard => Some(Kind::Guard),
    }
}

/// The label of a kind.
fn label_of(kind: Option<Kind>) -> Label
    ensures { shown_kind result ≡ kind }
{
    match kind {
        None => Label::Nothing,
        Some(Kind::Plain) => Label::Plain,
        Some(Kind::Array) => Label::Array,
        Some(Kind::Reference(RefKind::Soft)) => Label::Soft,
        Some(Kind::Reference(RefKind::Weak)) => Label::Weak,
        Some(Kind::Reference(RefKind::Phantom)) => Label::Phantom,
        Some(Kind::Queue) => Label::Queue,
        Some(Kind::Cleaner) => Label::Cleaner,
        Some(Kind::Cleanable) => Label::Cleanable,
        Some(Kind::Guard) => Label::Guard,
    }
}

//! A list of slots that is asked often what it holds.
ghost use Rattle.std.specs.Prelude.{◌≡◌, true, false, replicate, take, slice_set, IfOk};
ghost use Rattle.jlr_machine.specs.Objects.{◌∋◌};
ghost use Rattle.jlr_plain_collections.specs.Marks.{IsTable};

use jlr_types::Slot;
use std::alloc::{AllocError, Global};
use std::marker::Model;

/// Slots in order, with a mark for each below a number of cells.
#[derive(Drop)]
pub struct SlotList {
    slots: Vec<Slot>,
    marks: Vec<bool>,
}

impl Model for SlotList {
    ghost use Rattle.std.specs.Prelude.{ℕ, List};
    ghost use Rattle.jlr_plain_collections.specs.Marks.{IsTable};

    ghost Value = { List ℕ };

    ghost view = { λ s. s.slots.items };

    ghost invariant = { λ s. IsTable s.slots.items s.marks.items };
}

/// No cell is marked.
pub(crate) fn unmarked(alloc: Global, cells: usize) -> Result<Vec<bool>, AllocError>
    ensures { IfOk result (λ marks. marks.items ≡ replicate cells false) }
{
    let mut marks = Vec::with_capacity(alloc, cells)?;
    marks.resize(cells, false)?;
    Ok(marks)
}

fn put(marks: &mut [bool], slot: Slot)
    ensures { marks.new ≡ slice_set marks.old slot true }
{
    let number = slot.number() as usize;
    if number < marks.len() {
        marks[number] = true;
    }
}

/// Marks these, as far as there are cells.
fn put_all(marks: &mut [bool], slots: &[Slot])
    requires { IsTable (take 0 slots.now) marks.old }
    ensures { IsTable slots.now marks.new }
{
    for &slot in slots {
        put(marks, slot);
    }
}

fn find(slots: &[Slot], marks: &[bool], number: usize) -> bool
    requires { IsTable slots.now marks.now }
    ensures { result ≡ (slots.now ∋ number) }
{
    if number < marks.len() {
        return marks[number];
    }
    slots.iter().any(|x| number == x.number() as usize)
}

impl SlotList {
    /// These slots. Those below the cells are found at once.
    ///
    /// # Errors
    /// `AllocError` where there is no memory.
    pub fn from_vec(alloc: Global, cells: usize, slots: Vec<Slot>) -> Result<Self, AllocError>
        ensures { IfOk result (λ s. s ≡ slots.items) }
    {
        let mut marks = unmarked(alloc, cells)?;
        put_all(&mut marks, slots.as_slice());
        Ok(SlotList { slots, marks })
    }

    /// Whether it holds a slot.
    pub fn holds(&self, slot: Slot) -> bool
        ensures { result ≡ (self.now ∋ slot) }
    {
        self.has_number(slot.number() as usize)
    }

    /// Whether it holds the slot with this number.
    pub fn has_number(&self, number: usize) -> bool
        ensures { result ≡ (self.now ∋ number) }
    {
        find(self.slots.as_slice(), self.marks.as_slice(), number)
    }

    /// The slots, in order.
    pub fn as_slice(&self) -> &[Slot]
        ensures { result.now ≡ self.now }
    {
        self.slots.as_slice()
    }
}

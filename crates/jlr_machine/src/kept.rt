//! What a collection kept.
ghost use Rattle.std.specs.Prelude.{◌≡◌, ◌≤◌, ◌++◌, IfOk, take, length};
ghost use Rattle.std.specs.List.{AllByRecursion};
ghost use Rattle.jlr_sets.specs.SlotSets.{slots_of, is_in, IsSlotNumber, NoneFrom};
ghost use Rattle.jlr_machine.specs.Objects.{◌∋◌};

use crate::copy::copy_slice;
use jlr_sets::slots::SlotSet;
use jlr_types::Slot;
use std::alloc::{AllocError, Global};
use std::marker::Model;

/// No heap has more cells.
const MOST_CELLS: u32 = 65_536;

/// The slots that a collection kept, as a list. A list that rises lies here as a bit for each slot up to its last, at
/// most as many as a heap has cells. Any other list can lie here too: an entry that was read may name any slots. So it
/// is a set, and behind it the slots that it has no place for.
#[derive(Drop)]
pub struct KeptSlots {
    set: SlotSet,
    strays: Vec<Slot>,
}

impl Model for KeptSlots {
    ghost use Rattle.std.specs.Prelude.{ℕ, List, ◌++◌};
    ghost use Rattle.jlr_sets.specs.SlotSets.{slots_of};

    ghost Value = { List ℕ };

    ghost view = { λ k. slots_of k.set ++ k.strays.items };
}

impl KeptSlots {
    /// The list of these slots.
    ///
    /// # Errors
    /// `AllocError` where there is no memory.
    pub fn from_slice(alloc: Global, slots: &[Slot]) -> Result<Self, AllocError>
        ensures { IfOk result (λ k. k ≡ slots.now) }
    {
        let mut set = SlotSet::with_cells(alloc, cells_for(slots))?;
        let count = fill(&mut set, slots);
        let strays = copy_slice(alloc, &slots[count..])?;
        Ok(KeptSlots { set, strays })
    }

    /// The slots of this set, in no more memory than they need.
    pub(crate) fn of_set(alloc: Global, set: SlotSet) -> Self
        ensures { result ≡ slots_of set }
    {
        let mut set = set;
        set.trim();
        KeptSlots {
            set,
            strays: Vec::new(alloc),
        }
    }

    /// How many slots there are.
    pub fn len(&self) -> usize
        ensures { result ≡ length self.now }
    {
        self.set.count() + self.strays.len()
    }

    /// Whether the slot with this number is among them. Slots that do not lie as bits are gone through.
    pub fn holds(&self, number: usize) -> bool
        ensures { result ≡ (self.now ∋ number) }
    {
        is_inside(&self.set, number) || is_one_of(self.strays.as_slice(), number)
    }

    /// What is true of each of the slots, for callers.
    pub fn in_range(&self)
        ensures { AllByRecursion IsSlotNumber self.now }
    {
        self.set.in_range();
        numbers_in_range(self.strays.as_slice());
    }

    /// The slots, in order.
    ///
    /// # Errors
    /// `AllocError` where there is no memory.
    pub fn to_vec(&self, alloc: Global) -> Result<Vec<Slot>, AllocError>
        ensures { IfOk result (λ slots. slots.items ≡ self.now) }
    {
        let mut slots = self.set.to_vec(alloc)?;
        slots.extend_from_slice(self.strays.as_slice())?;
        Ok(slots)
    }
}

/// What is true of the number of each slot.
fn numbers_in_range(slots: &[Slot])
    ensures { AllByRecursion IsSlotNumber slots.now }
{
    for slot in slots {
        let _number = slot.number();
    }
}

/// Whether the slot with this number is in the set.
fn is_inside(set: &SlotSet, number: usize) -> bool
    ensures { result ≡ is_in set.now number }
{
    set.in_range();
    let Ok(slot) = u32::try_from(number) else {
        return false;
    };
    set.has_place(slot) && set.contains(slot)
}

/// Whether one of the slots has this number.
fn is_one_of(slots: &[Slot], number: usize) -> bool
    ensures { result ≡ (slots.now ∋ number) }
{
    slots.iter().any(|slot| number == slot.number() as usize)
}

/// For how many cells a set has to have places: up to the last slot, as far as a heap has cells.
fn cells_for(slots: &[Slot]) -> u32 {
    match slots.last() {
        Some(last) => last.number().saturating_add(1).min(MOST_CELLS),
        None => 0,
    }
}

/// Puts the slots into the empty set, as long as they rise and have places. Says how many.
fn fill(set: &mut SlotSet, slots: &[Slot]) -> usize
    requires { NoneFrom set.old 0 }
    ensures within { result ≤ length slots.now }
    ensures slots { slots_of set.new ≡ take result slots.now }
{
    let mut from = 0;
    let mut count = 0;
    for slot in slots {
        let number = slot.number();
        if (number as usize) < from || !set.has_place(number) {
            return count;
        }
        set.insert(number);
        from = number as usize + 1;
        count += 1;
    }
    count
}

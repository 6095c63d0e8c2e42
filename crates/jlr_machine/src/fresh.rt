//! The slots of new objects.
ghost use Rattle.std.specs.Prelude.{◌≡◌, ◌≤◌, ◌<◌, ◌↔◌, [], ◌∷◌, ◌++◌, IsSome, IfSome, length};

use jlr_types::Slot;
use std::marker::Model;

/// The most new objects of one entry: a guard and its cleanable.
const FRESH_LIMIT: usize = 2;

/// The slots of the new objects of an entry, at most two, in order. They take no memory.
#[derive(Drop)]
pub struct FreshSlots {
    slots: [Slot; FRESH_LIMIT],
    count: u8,
}

impl Model for FreshSlots {
    ghost use Rattle.std.specs.Prelude.{ℕ, List, ◌≤◌, take};

    ghost Value = { List ℕ };

    ghost view = { λ f. take f.count f.slots };

    ghost invariant = { λ f. f.count ≤ 2 };
}

impl FreshSlots {
    /// No slot.
    pub fn new() -> Self
        ensures { result ≡ [] }
    {
        FreshSlots {
            slots: [Slot::new(0); FRESH_LIMIT],
            count: 0,
        }
    }

    /// These slots, or none where they are more than two.
    pub fn from_slice(slots: &[Slot]) -> Option<Self>
        ensures fits { IsSome result ↔ (length slots.now ≤ 2) }
        ensures slots { IfSome result (λ f. f ≡ slots.now) }
    {
        match slots {
            [] => Some(FreshSlots::new()),
            [only] => Some(FreshSlots {
                slots: [*only; FRESH_LIMIT],
                count: 1,
            }),
            [first, second] => Some(FreshSlots {
                slots: [*first, *second],
                count: 2,
            }),
            _ => None,
        }
    }

    /// The slots, at most two.
    pub fn as_slice(&self) -> &[Slot]
        ensures slots { result.now ≡ self.now }
        ensures fits { length result.now ≤ 2 }
    {
        &self.slots[..self.count as usize]
    }

    /// Adds a slot behind the others.
    pub fn push(&mut self, slot: Slot)
        requires { length self.old < 2 }
        ensures { self.new ≡ self.old ++ slot ∷ [] }
    {
        self.slots[self.count as usize] = slot;
        self.count += 1;
    }

    /// Forgets all slots.
    pub fn clear(&mut self)
        ensures { self.new ≡ [] }
    {
        self.count = 0;
    }
}

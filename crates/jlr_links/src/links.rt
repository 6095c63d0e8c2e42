//! Lists of slots.
ghost use Rattle.std.specs.Prelude.{◌≡◌, ℕ, ◌<◌, ◌++◌, ◌∷◌, ◌↔◌, [], List, IfOk, IsTrue, None, Some, drop, length};
ghost use Rattle.std.specs.Prelude.{replicate, slice_get, slice_set};
ghost use Rattle.jlr_machine.specs.Objects.{◌∈◌};
ghost use Rattle.jlr_links.specs.Lists.{list_at};
ghost use Rattle.jlr_links.specs.Walks.{AreLinked, ends_at, lists_in, members};

use crate::column::Column;
use jlr_machine::items::Items;
use jlr_types::Slot;
use std::alloc::{AllocError, Global};
use std::marker::Model;

/// Where a list begins and ends, and how long it is. Of an empty one only that is known.
#[derive(Clone, Copy)]
pub(crate) struct Ends {
    first: u32,
    last: u32,
    count: u32,
}

/// Lists of slots, by number. A slot stands in at most one of them, once.
#[derive(Drop)]
pub struct Links {
    /// By slot, the one after it in its list.
    next: Column<u32>,
    ends: Vec<Ends>,
}

impl Model for Links {
    ghost use Rattle.std.specs.Prelude.{length};
    ghost use Rattle.jlr_links.specs.Lists.{Lists};
    ghost use Rattle.jlr_links.specs.Walks.{AreLinked, lists_in};

    ghost Value = { Lists };

    ghost view = { λ l. record { lists = lists_in l.next l.ends.items; slots = length l.next } };

    ghost invariant = { λ l. AreLinked l.next l.ends.items };
}

impl Links {
    /// Empty lists, of slots below a number. All room is made at once.
    ///
    /// # Errors
    /// `AllocError` where the room cannot be had.
    pub fn new(alloc: Global, lists: u32, slots: u32) -> Result<Self, AllocError>
        ensures lists { IfOk result (λ links. links.lists ≡ replicate lists []) }
        ensures slots { IfOk result (λ links. links.slots ≡ slots) }
    {
        let mut ends = Vec::new(alloc);
        ends.resize(lists as usize, NO_ENDS)?;
        Ok(Links {
            next: Column::new(alloc, slots)?,
            ends,
        })
    }

    /// Whether a list is empty.
    pub fn is_empty(&self, list: u32) -> bool
        requires { list < length self.now.lists }
        ensures { IsTrue result ↔ (list_at self.now.lists list ≡ []) }
    {
        self.ends[list as usize].count == 0
    }

    /// How many slots stand in a list.
    pub fn count(&self, list: u32) -> u32
        requires { list < length self.now.lists }
        ensures { result ≡ length (list_at self.now.lists list) }
    {
        self.ends[list as usize].count
    }

    /// The slot at the front of a list, if it is not empty.
    pub fn front(&self, list: u32) -> Option<Slot>
        requires { list < length self.now.lists }
        ensures { result ≡ slice_get (list_at self.now.lists list) 0 }
    {
        let ends = self.ends[list as usize];
        if ends.count == 0 {
            return None;
        }
        Some(Slot::new(ends.first))
    }

    /// The slot after one that stands in a list, if that is not the last.
    pub fn next(&self, list: u32, slot: Slot) -> Option<Slot>
        requires list { list < length self.now.lists }
        requires member { slot ∈ list_at self.now.lists list }
        ensures { (before after : List ℕ) → list_at self.now.lists list ≡ before ++ slot ∷ after
            → result ≡ slice_get after 0 }
    {
        if slot.number() == self.ends[list as usize].last {
            return None;
        }
        Some(Slot::new(self.next[slot.number() as usize]))
    }

    /// A list as plain data.
    ///
    /// # Errors
    /// `AllocError` where there is no memory for it.
    pub fn image(&self, alloc: Global, list: u32) -> Result<Items<Slot>, AllocError>
        requires { list < length self.now.lists }
        ensures { IfOk result (λ slots. slots ≡ list_at self.now.lists list) }
    {
        let count = self.count(list);
        let mut slots = Vec::with_capacity(alloc, count as usize)?;
        let mut next = self.front(list);
        for _place in 0..count {
            match next {
                Some(slot) => {
                    slots.push_reserved(slot);
                    next = self.next(list, slot);
                }
                None => unreachable!(),
            }
        }
        Ok(Items::from_vec(slots))
    }

    /// A slot that stands in no list goes to the end of this one.
    pub fn append(&mut self, list: u32, slot: Slot)
        requires list { list < length self.old.lists }
        requires slot { slot < self.old.slots }
        requires apart { (k : ℕ) → slot ∈ list_at self.old.lists k → ⊥ }
        ensures lists { self.new.lists ≡ slice_set self.old.lists list (list_at self.old.lists list ++ slot ∷ []) }
        ensures slots { self.new.slots ≡ self.old.slots }
    {
        append(&mut self.next, &mut self.ends, list, slot.number());
    }

    /// The slot at the front of a list leaves it, if it is not empty.
    pub fn take_front(&mut self, list: u32) -> Option<Slot>
        requires { list < length self.old.lists }
        ensures front { result ≡ slice_get (list_at self.old.lists list) 0 }
        ensures lists { self.new.lists ≡ slice_set self.old.lists list (drop 1 (list_at self.old.lists list)) }
        ensures slots { self.new.slots ≡ self.old.slots }
    {
        let front = self.front(list)?;
        drop_front(&self.next, &mut self.ends, list);
        Some(front)
    }

    /// All slots leave a list.
    pub fn clear(&mut self, list: u32)
        requires { list < length self.old.lists }
        ensures lists { self.new.lists ≡ slice_set self.old.lists list [] }
        ensures slots { self.new.slots ≡ self.old.slots }
    {
        self.ends[list as usize] = NO_ENDS;
    }
}

/// The ends of an empty list.
const NO_ENDS: Ends = Ends {
    first: 0,
    last: 0,
    count: 0,
};

fn append(next: &mut Column<u32>, ends: &mut [Ends], list: u32, slot: u32)
    requires linked { AreLinked next.old ends.old }
    requires list { list < length ends.old }
    requires slot { slot < length next.old }
    requires apart { (k : ℕ) → slot ∈ members next.old ends.old k → ⊥ }
    ensures linked { AreLinked next.new ends.new }
    ensures lists { lists_in next.new ends.new
        ≡ slice_set (lists_in next.old ends.old) list (members next.old ends.old list ++ slot ∷ []) }
    ensures long { length next.new ≡ length next.old }
{
    let old = ends[list as usize];
    if old.count == 0 {
        ends[list as usize] = Ends {
            first: slot,
            last: slot,
            count: 1,
        };
        return;
    }
    next[old.last as usize] = slot;
    ends[list as usize] = Ends {
        first: old.first,
        last: slot,
        count: old.count + 1,
    };
}

fn drop_front(next: &Column<u32>, ends: &mut [Ends], list: u32)
    requires linked { AreLinked next.now ends.old }
    requires list { list < length ends.old }
    requires some { (ends_at ends.old list).count ≡ 0 → ⊥ }
    ensures linked { AreLinked next.now ends.new }
    ensures lists { lists_in next.now ends.new
        ≡ slice_set (lists_in next.now ends.old) list (drop 1 (members next.now ends.old list)) }
{
    let old = ends[list as usize];
    ends[list as usize] = Ends {
        first: next[old.first as usize],
        last: old.last,
        count: old.count - 1,
    };
}

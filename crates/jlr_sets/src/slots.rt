//! A set of slots, a bit for each.
ghost use Rattle.std.specs.Prelude.{◌≡◌, ℕ, ◌^◌, ◌<◌, ◌≤◌, ◌↔◌, true, false, not, length, replicate, IfOk, IsTrue};
ghost use Rattle.std.specs.Prelude.{slice_set};
ghost use Rattle.jlr_sets.specs.SlotSets.{absent, slots_of, places_for, is_in, beyond, FindsFirst, IsTrimmed};

use crate::words;
use jlr_types::Slot;
use std::alloc::{AllocError, Global};
use std::marker::Model;

/// How many places a word has.
const PLACES: u32 = 64;

/// A set of slots. It has as many places as its words have bits.
#[derive(Drop)]
pub struct SlotSet {
    words: Vec<u64>,
}

/// For each place, whether its slot is in the set.
impl Model for SlotSet {
    ghost use Rattle.std.specs.Prelude.{List, Bool, ◌≤◌, length};
    ghost use Rattle.jlr_sets.specs.Bits.{bits_of};

    ghost Value = { List Bool };

    ghost view = { λ s. bits_of s.words.items };

    ghost invariant = { λ s. length s.words.items ≤ 67108864 };
}

impl SlotSet {
    /// The empty set, with a place for each cell.
    ///
    /// # Errors
    /// `AllocError` where the room cannot be had.
    pub fn with_cells(alloc: Global, cells: u32) -> Result<SlotSet, AllocError>
        ensures empty { IfOk result (λ s. s ≡ replicate (places_for cells) false) }
        ensures room { IfOk result (λ s. cells ≤ length s) }
    {
        let count = cells.div_ceil(PLACES);
        Ok(SlotSet {
            words: vec![in alloc; 0; count as usize]?,
        })
    }

    /// Whether the slot has a place.
    pub fn has_place(&self, slot: u32) -> bool
        ensures { IsTrue result ↔ (slot < length self.now) }
    {
        ((slot / PLACES) as usize) < self.words.len()
    }

    /// Whether the slot is in the set.
    pub fn contains(&self, slot: u32) -> bool
        requires { slot < length self.now }
        ensures { result ≡ is_in self.now slot }
    {
        let word = self.words[(slot / PLACES) as usize];
        word >> (slot % PLACES) & 1 == 1
    }

    /// Puts the slot into the set. Answers whether it was not in it.
    pub fn insert(&mut self, slot: u32) -> bool
        requires { slot < length self.old }
        ensures set { self.new ≡ slice_set self.old slot true }
        ensures added { result ≡ not (is_in self.old slot) }
    {
        let at = (slot / PLACES) as usize;
        let word = self.words[at];
        if word >> (slot % PLACES) & 1 == 1 {
            return false;
        }
        self.words[at] = word | 1u64 << (slot % PLACES);
        true
    }

    /// Takes the slot out of the set.
    pub fn remove(&mut self, slot: u32)
        requires { slot < length self.old }
        ensures { self.new ≡ slice_set self.old slot false }
    {
        let at = (slot / PLACES) as usize;
        let word = self.words[at];
        self.words[at] = word & !(1u64 << (slot % PLACES));
    }

    /// Takes all slots out of the set.
    pub fn clear(&mut self)
        ensures { self.new ≡ replicate (length self.old) false }
    {
        self.words.fill(0);
    }

    /// Takes the slots of another set, all of which have a place here, in place of its own.
    pub fn assign(&mut self, other: &SlotSet)
        requires { (slot : ℕ) → is_in other.now slot ≡ true → slot < length self.old }
        ensures each { (slot : ℕ) → is_in self.new slot ≡ is_in other.now slot }
        ensures slots { slots_of self.new ≡ slots_of other.now }
        ensures places { length self.new ≡ length self.old }
    {
        self.words.fill(0);
        words::overwrite(&mut self.words, &other.words);
    }

    /// The first slot not below `from` that is in this set and not in the other.
    pub fn next_beyond(&self, other: &SlotSet, from: usize) -> Option<usize>
        ensures { FindsFirst (beyond self.now other.now) from result }
    {
        words::first_beyond_from(&self.words, &other.words, from)
    }

    /// The first place not below `from` whose slot is not in the set.
    pub fn next_absent(&self, from: usize) -> Option<usize>
        ensures { FindsFirst (absent self.now) from result }
    {
        words::first_absent_from(&self.words, from)
    }

    /// The first slot of the set that is not below `from`.
    pub fn next_from(&self, from: usize) -> Option<usize>
        ensures { FindsFirst self.now from result }
    {
        words::first_from(&self.words, from)
    }

    /// What is true of each set, for callers: no slot is beyond 32 bits.
    pub fn in_range(&self)
        ensures { length self.now ≤ 2 ^ 32 }
    {
        let _words = &self.words;
    }

    /// How many slots are in the set.
    pub fn count(&self) -> usize
        ensures count { result ≡ length (slots_of self.now) }
        ensures fits { result ≤ 4294967296 }
    {
        words::count_of(&self.words)
    }

    /// The slots of the set, rising.
    ///
    /// # Errors
    /// `AllocError` where there is no memory.
    pub fn to_vec(&self, alloc: Global) -> Result<Vec<Slot>, AllocError>
        ensures { IfOk result (λ slots. slots.items ≡ slots_of self.now) }
    {
        let _ = &self.words;
        let mut slots = Vec::with_capacity(alloc, self.count())?;
        let mut from = 0;
        while let Some(slot) = self.next_from(from) {
            slots.push(Slot::new(slot as u32))?;
            from = slot + 1;
        }
        Ok(slots)
    }

    /// Gives up the places behind the last word that is not 0, and their memory. The slots stay.
    pub fn trim(&mut self)
        ensures slots { slots_of self.new ≡ slots_of self.old }
        ensures trimmed { IsTrimmed self.new }
    {
        self.words.truncate(words::trimmed_len(&self.words));
        self.words.shrink_to_fit();
    }
}

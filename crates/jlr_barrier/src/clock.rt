//! What the soft policy asks: how many collections have finished, and when a reference was made or last gave its
//! referent. And what tells that a cycle is due: how many cells were taken since.
ghost use Rattle.std.specs.Prelude.{◌≡◌, ◌<◌, ℕ, Some, cond, is_some, slice_index_or, length};
ghost use Rattle.jlr_barrier.specs.Graphs.{counted, gotten_at, used_now};
ghost use Rattle.jlr_barrier.specs.Snapshots.{IsObject};
ghost use Rattle.jlr_marks.specs.Marking.{Shaded};
ghost use Rattle.jlr_machine.specs.Refusals.{gotten};

use crate::heap::Heap;
use crate::shade::shade_target;
use jlr_machine::object::Reference;
use jlr_types::{RefKind, Slot};

impl Heap {
    /// How many collections have finished, at most 2^64 - 1.
    pub fn collections(&self) -> u64
        ensures { result ≡ self.now.clock.collections }
    {
        self.collections
    }

    /// How many cells were taken since a collection finished last, two for a guard; at most 2^32 - 1.
    pub fn since_collection(&self) -> u32
        ensures { result ≡ self.now.clock.since }
    {
        self.since_collection
    }

    /// How many collections had finished when the object at a slot was made or, if it is a reference, last gave its
    /// referent.
    pub fn last_get(&self, slot: Slot) -> u64
        requires { slot < length self.now.graph.objects }
        ensures { result ≡ slice_index_or self.now.clock.last_gets slot 0 }
    {
        self.last_gets[slot.number() as usize]
    }

    /// One collection more has finished, and no cell was taken since. The count of collections saturates.
    pub fn count_collection(&mut self)
        ensures graph { self.new.graph ≡ self.old.graph }
        ensures clock { self.new.clock ≡ counted self.old.clock }
        ensures marking { self.new.marking ≡ self.old.marking }
        ensures condemned { self.new.condemned ≡ self.old.condemned }
    {
        self.collections = self.collections.saturating_add(1);
        self.since_collection = 0;
    }

    /// What the reference at a slot would give: its referent, but never that of a phantom reference. It is not given
    /// yet.
    pub fn gotten(&self, slot: Slot) -> Option<Slot>
        ensures { result ≡ gotten_at self.now.graph.objects slot }
    {
        gotten(self.cells.reference(slot)?)
    }

    /// The reference at a slot gives its referent, if it has one and is no phantom reference. It was used now, then,
    /// and what it gave is shaded: nothing else might lead to it.
    pub fn deref(&mut self, slot: Slot) -> Option<Slot>
        requires { (s : ℕ) → gotten_at self.old.graph.objects slot ≡ Some s → IsObject self.old.graph.objects s }
        ensures given { result ≡ gotten_at self.old.graph.objects slot }
        ensures graph { self.new.graph ≡ self.old.graph }
        ensures clock { self.new.clock ≡ cond (is_some result) (used_now self.old.clock slot) self.old.clock }
        ensures shaded { Shaded (λ s. gotten_at self.old.graph.objects slot ≡ Some s) self.old.marking
            self.new.marking }
        ensures condemned { self.new.condemned ≡ self.old.condemned }
    {
        let referent = self.gotten(slot)?;
        shade_target(Some(referent), &mut self.marks);
        self.last_gets[slot.number() as usize] = self.collections;
        Some(referent)
    }
}

fn gotten(reference: Reference) -> Option<Slot>
    ensures { result ≡ gotten reference }
{
    match reference.kind {
        RefKind::Soft | RefKind::Weak => reference.referent,
        RefKind::Phantom => None,
    }
}

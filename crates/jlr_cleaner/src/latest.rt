//! What happened last.
ghost use Rattle.std.specs.Prelude.{◌≡◌, ◌≤◌, [], ◌∷◌, ◌++◌, IfOk, OnErr, length};
ghost use Rattle.jlr_machine.specs.Lookups.{last_256};

use circular_buffer::HeapCircularBuffer;
use jlr_machine::items::Items;
use std::alloc::{AllocError, Global};
use std::marker::Model;

const KEPT: usize = 256;

/// The last 256 of a list that only grows, the oldest first.
#[derive(Drop)]
pub(crate) struct Latest<T> {
    items: HeapCircularBuffer<T>,
}

impl<T> Model for Latest<T> {
    ghost use Rattle.std.specs.Prelude.{◌≡◌, List};

    ghost Value = { List T };

    ghost view = { λ a. a.items.items };

    ghost invariant = { λ a. a.items.capacity ≡ 256 };
}

impl<T: Copy> Latest<T> {
    /// An empty list with its room.
    pub(crate) fn new(alloc: Global) -> Result<Self, AllocError>
        ensures { IfOk result (λ latest. latest ≡ []) }
    {
        Ok(Latest {
            items: HeapCircularBuffer::with_capacity(alloc, KEPT)?,
        })
    }

    /// One more, in place of the oldest where 256 are kept.
    pub(crate) fn add(&mut self, item: T)
        ensures { self.new ≡ last_256 (self.old ++ item ∷ []) }
    {
        let _oldest = self.items.push_back(item);
    }

    /// A copy. Without an item it takes no memory.
    pub(crate) fn image(&self, alloc: Global) -> Result<Items<T>, AllocError>
        ensures items { IfOk result (λ items. items ≡ self.now) }
        ensures some { OnErr result (1 ≤ length self.now) }
    {
        if self.items.is_empty() {
            return Ok(Items::new(alloc));
        }
        Ok(Items::from_vec(self.items.to_vec(alloc)?))
    }
}

//! Lists whose keys rise.
ghost use Rattle.std.specs.Prelude.{◌≡◌, ◌<◌, None};
ghost use Rattle.jlr_trace_fields.specs.Reading.{Reads};
ghost use Rattle.jlr_trace_fields.specs.Items.{may_follow, rising_items_at, rising_at};

use crate::cursor::{take_slot, take_u32};
use crate::fault::{Fault, ReadError};
use jlr_machine::items::Items;
use jlr_types::Slot;
use std::alloc::Global;

/// What is read from a list whose keys rise.
pub trait Keyed: Sized {
    ghost use Rattle.std.specs.Prelude.{ℕ, Option, ◌≡◌};
    ghost use Rattle.jlr_trace_fields.specs.Reading.{Reader, Reads};

    ghost read_after: { Option ℕ → Reader Self };

    ghost key_of: { Self → ℕ };

    ghost LEAST: { ℕ };

    /// The fewest bytes that one takes.
    const LEAST: usize;

    /// What rises.
    fn key(&self) -> u64
        ensures { result ≡ key_of self.now };

    /// One item from the front, whose key is above the one before it.
    fn read(alloc: Global, before: Option<u64>, bytes: &mut &[u8]) -> Result<Self, ReadError>
        ensures { Reads (λ x. x) result bytes.new.now (read_after before bytes.old.now) };
}

/// Whether a key may follow the one before it.
pub(crate) fn follows(before: Option<u64>, key: u64) -> bool
    ensures { result ≡ may_follow before key }
{
    match before {
        Some(before) => before < key,
        None => true,
    }
}

/// So many items with rising keys.
fn take_rising_items<T: Keyed + Drop>(
    alloc: Global,
    count: u32,
    bytes: &mut &[u8],
) -> Result<Vec<T>, ReadError>
    ensures { Reads (λ x. x.items) result bytes.new.now
        (rising_items_at T.read_after T.key_of count None bytes.old.now) }
{
    let mut items: Vec<T> = Vec::new(alloc);
    let mut before: Option<u64> = None;
    for _ in 0..count {
        let item = T::read(alloc, before, bytes)?;
        before = Some(item.key());
        items.push(item)?;
    }
    Ok(items)
}

/// A list whose keys rise. One that cannot fit in the bytes that are left is short, and takes no memory.
#[tactic(auto, unfolding(crate::specs::Items::rising_at))]
pub fn take_rising<T: Keyed + Drop>(alloc: Global, bytes: &mut &[u8]) -> Result<Items<T>, ReadError>
    requires { T.LEAST < 256 }
    ensures { Reads (λ x. x) result bytes.new.now (rising_at T.LEAST T.read_after T.key_of bytes.old.now) }
{
    let count = take_u32(bytes)?;
    if bytes.len() < count as usize * T::LEAST {
        return Err(ReadError::Fault(Fault::Short));
    }
    Ok(Items::from_vec(take_rising_items(alloc, count, bytes)?))
}

impl Keyed for Slot {
    ghost use Rattle.jlr_trace_fields.specs.Records.{slot_after};

    ghost read_after = { slot_after };

    ghost key_of = { λ s. s };

    ghost LEAST = { 4 };

    const LEAST: usize = 4;

    fn key(&self) -> u64 {
        self.number() as u64
    }

    #[tactic(auto, unfolding(crate::specs::Records::slot_after))]
    fn read(_alloc: Global, before: Option<u64>, bytes: &mut &[u8]) -> Result<Self, ReadError> {
        let slot = take_slot(bytes)?;
        if !follows(before, slot.number() as u64) {
            return Err(ReadError::Fault(Fault::Range));
        }
        Ok(slot)
    }
}

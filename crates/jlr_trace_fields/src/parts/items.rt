//! Lists: a count, and that many items.
ghost use Rattle.std.specs.Prelude.{◌≡◌, ◌<◌, ◌^◌, ◌++◌, OnOk, length};
ghost use Rattle.std.specs.List.{flat_map, AllByRecursion};
ghost use Rattle.jlr_trace_fields.specs.Reading.{Reads};
ghost use Rattle.jlr_trace_fields.specs.Items.{items_at, list_at, spelled_list};

use crate::cursor::{take_name, take_option, take_slot, take_u32};
use crate::fault::{Fault, ReadError};
use crate::number::{put_option, put_slot, put_u32};
use crate::text::put_text;
use jlr_machine::items::Items;
use jlr_machine::text::Name;
use jlr_types::Slot;
use std::alloc::{AllocError, Global};

/// What is read from a list.
pub trait Item: Sized {
    ghost use Rattle.std.specs.Prelude.{ℕ, ◌≡◌};
    ghost use Rattle.jlr_trace_fields.specs.Reading.{Reader, Reads};

    ghost read_at: { Reader Self };

    ghost LEAST: { ℕ };

    /// The fewest bytes that one takes.
    const LEAST: usize;

    /// One item from the front.
    fn read(alloc: Global, bytes: &mut &[u8]) -> Result<Self, ReadError>
        ensures { Reads (λ x. x) result bytes.new.now (read_at bytes.old.now) };
}

/// What is written into a list.
pub trait Written: Sized {
    ghost use Rattle.std.specs.Prelude.{ℕ, List, ◌≡◌, ◌++◌, OnOk};

    ghost spelled: { Self → List ℕ };

    /// Its own lists are short enough for their counts.
    ghost Counts: { Self → Type 0 };

    /// Writes it behind the others.
    fn write(&self, out: &mut Vec<u8>) -> Result<(), AllocError>
        requires { Counts self.now }
        ensures { OnOk result (out.new.items ≡ out.old.items ++ spelled self.now) };
}

/// So many items.
pub fn take_items<T: Item + Drop>(
    alloc: Global,
    count: u32,
    bytes: &mut &[u8],
) -> Result<Vec<T>, ReadError>
    ensures { Reads (λ x. x.items) result bytes.new.now (items_at T.read_at count bytes.old.now) }
{
    let mut items: Vec<T> = Vec::new(alloc);
    for _ in 0..count {
        let item = T::read(alloc, bytes)?;
        items.push(item)?;
    }
    Ok(items)
}

/// A list. One that cannot fit in the bytes that are left is short, and takes no memory.
#[tactic(auto, unfolding(crate::specs::Items::list_at))]
pub fn take_list<T: Item + Drop>(alloc: Global, bytes: &mut &[u8]) -> Result<Items<T>, ReadError>
    requires { T.LEAST < 256 }
    ensures { Reads (λ x. x) result bytes.new.now (list_at T.LEAST T.read_at bytes.old.now) }
{
    let count = take_u32(bytes)?;
    if bytes.len() < count as usize * T::LEAST {
        return Err(ReadError::Fault(Fault::Short));
    }
    Ok(Items::from_vec(take_items(alloc, count, bytes)?))
}

/// Writes the items, without their count.
pub fn put_each<T: Written>(out: &mut Vec<u8>, items: &[T]) -> Result<(), AllocError>
    requires { AllByRecursion T.Counts items.now }
    ensures { OnOk result (out.new.items ≡ out.old.items ++ flat_map T.spelled items.now) }
{
    for item in items {
        item.write(out)?;
    }
    Ok(())
}

/// Writes a list.
pub fn put_list<T: Written>(out: &mut Vec<u8>, items: &[T]) -> Result<(), AllocError>
    requires count { length items.now < 2 ^ 32 }
    requires counts { AllByRecursion T.Counts items.now }
    ensures { OnOk result (out.new.items ≡ out.old.items ++ spelled_list T.spelled items.now) }
{
    put_u32(out, items.len() as u32)?;
    put_each(out, items)
}

impl Item for Slot {
    ghost use Rattle.std.specs.Int.{w32};
    ghost use Rattle.jlr_trace_fields.specs.Reading.{number_at};

    ghost read_at = { number_at w32 };

    ghost LEAST = { 4 };

    const LEAST: usize = 4;

    fn read(_alloc: Global, bytes: &mut &[u8]) -> Result<Self, ReadError> {
        take_slot(bytes)
    }
}

impl Written for Slot {
    ghost use Rattle.jlr_trace_fields.specs.Spelling.{spelled_32};

    ghost spelled = { spelled_32 };

    ghost Counts = { λ _. Unit {0} };

    fn write(&self, out: &mut Vec<u8>) -> Result<(), AllocError> {
        put_slot(out, *self)
    }
}

impl Item for Option<Slot> {
    ghost use Rattle.jlr_trace_fields.specs.Reading.{option_at};

    ghost read_at = { option_at };

    ghost LEAST = { 4 };

    const LEAST: usize = 4;

    fn read(_alloc: Global, bytes: &mut &[u8]) -> Result<Self, ReadError> {
        take_option(bytes)
    }
}

impl Written for Option<Slot> {
    ghost use Rattle.jlr_trace_fields.specs.Spelling.{spelled_option};

    ghost spelled = { spelled_option };

    ghost Counts = { λ _. Unit {0} };

    fn write(&self, out: &mut Vec<u8>) -> Result<(), AllocError> {
        put_option(out, *self)
    }
}

impl Item for u32 {
    ghost use Rattle.std.specs.Int.{w32};
    ghost use Rattle.jlr_trace_fields.specs.Reading.{number_at};

    ghost read_at = { number_at w32 };

    ghost LEAST = { 4 };

    const LEAST: usize = 4;

    fn read(_alloc: Global, bytes: &mut &[u8]) -> Result<Self, ReadError> {
        take_u32(bytes)
    }
}

impl Written for u32 {
    ghost use Rattle.jlr_trace_fields.specs.Spelling.{spelled_32};

    ghost spelled = { spelled_32 };

    ghost Counts = { λ _. Unit {0} };

    fn write(&self, out: &mut Vec<u8>) -> Result<(), AllocError> {
        put_u32(out, *self)
    }
}

impl Item for Name {
    ghost use Rattle.jlr_trace_fields.specs.Reading.{text_at};
    ghost use Rattle.jlr_machine.specs.Names.{is_name_byte};

    ghost read_at = { text_at 1 32 is_name_byte };

    ghost LEAST = { 2 };

    const LEAST: usize = 2;

    fn read(_alloc: Global, bytes: &mut &[u8]) -> Result<Self, ReadError> {
        take_name(bytes)
    }
}

impl Written for Name {
    ghost use Rattle.jlr_trace_fields.specs.Spelling.{spelled_text};

    ghost spelled = { spelled_text };

    ghost Counts = { λ _. Unit {0} };

    fn write(&self, out: &mut Vec<u8>) -> Result<(), AllocError> {
        put_text(out, self.as_slice())
    }
}

//! Takes fields from the front of the bytes: the bytes are then what is left. After a fault they are not to be used.
ghost use Rattle.std.specs.Prelude.{◌≤◌, ◌<◌, IfOk};
ghost use Rattle.std.specs.Int.{w16, w32, w64};
ghost use Rattle.jlr_trace_fields.specs.Reading.{Reads, byte_at, number_at, number_within_at, signed_at};
ghost use Rattle.jlr_trace_fields.specs.Reading.{byte_within_at};
ghost use Rattle.jlr_trace_fields.specs.Reading.{flag_at, option_at, picked_at, bytes_at, text_at};
ghost use Rattle.jlr_machine.specs.Names.{is_name_byte};

use crate::fault::ReadError;
use crate::number::{
    bool_at, byte_within, i64_at, picked, slot_option_at, u8_at, u16_within, u32_at, u64_at,
};
use crate::text::{data_at, name_at};
use jlr_machine::data::Data;
use jlr_machine::text::Name;
use jlr_types::{ActionNo, Handle, Mutator, Rid, Slot};
use std::alloc::Global;

/// A byte.
pub fn take_u8(bytes: &mut &[u8]) -> Result<u8, ReadError>
    ensures { Reads (λ x. x) result bytes.new.now (byte_at bytes.old.now) }
{
    let (value, rest) = u8_at(bytes)?;
    *bytes = rest;
    Ok(value)
}

/// A number of four bytes.
pub fn take_u32(bytes: &mut &[u8]) -> Result<u32, ReadError>
    ensures { Reads (λ x. x) result bytes.new.now (number_at w32 bytes.old.now) }
{
    let (value, rest) = u32_at(bytes)?;
    *bytes = rest;
    Ok(value)
}

/// A number of eight bytes.
pub fn take_u64(bytes: &mut &[u8]) -> Result<u64, ReadError>
    ensures { Reads (λ x. x) result bytes.new.now (number_at w64 bytes.old.now) }
{
    let (value, rest) = u64_at(bytes)?;
    *bytes = rest;
    Ok(value)
}

/// A signed number of eight bytes.
pub fn take_i64(bytes: &mut &[u8]) -> Result<i64, ReadError>
    ensures { Reads (λ x. x) result bytes.new.now (signed_at bytes.old.now) }
{
    let (value, rest) = i64_at(bytes)?;
    *bytes = rest;
    Ok(value)
}

/// A byte 0 for no, 1 for yes.
pub fn take_flag(bytes: &mut &[u8]) -> Result<bool, ReadError>
    ensures { Reads (λ x. x) result bytes.new.now (flag_at bytes.old.now) }
{
    let (value, rest) = bool_at(bytes)?;
    *bytes = rest;
    Ok(value)
}

/// A byte from low to high.
pub fn take_within(low: u8, high: u8, bytes: &mut &[u8]) -> Result<u8, ReadError>
    ensures reads { Reads (λ x. x) result bytes.new.now (byte_within_at low high bytes.old.now) }
    ensures within { IfOk result (λ x. (low ≤ x) × (x ≤ high)) }
{
    let (value, rest) = byte_within(low, high, bytes)?;
    *bytes = rest;
    Ok(value)
}

/// A number of two bytes, from low to high.
pub fn take_u16_within(low: u16, high: u16, bytes: &mut &[u8]) -> Result<u16, ReadError>
    ensures reads { Reads (λ x. x) result bytes.new.now (number_within_at w16 low high bytes.old.now) }
    ensures within { IfOk result (λ x. (low ≤ x) × (x ≤ high)) }
{
    let (value, rest) = u16_within(low, high, bytes)?;
    *bytes = rest;
    Ok(value)
}

/// One of the values of a table, named by its place, counted from a first number.
pub fn take_picked<T: Copy>(first: u8, table: &[T], bytes: &mut &[u8]) -> Result<T, ReadError>
    ensures { Reads (λ x. x) result bytes.new.now (picked_at first table.now bytes.old.now) }
{
    let (value, rest) = picked(first, table, bytes)?;
    *bytes = rest;
    Ok(value)
}

/// A slot.
pub(crate) fn take_slot(bytes: &mut &[u8]) -> Result<Slot, ReadError>
    ensures { Reads (λ x. x) result bytes.new.now (number_at w32 bytes.old.now) }
{
    let number = take_u32(bytes)?;
    Ok(Slot::new(number))
}

/// The place of a resource.
pub fn take_rid(bytes: &mut &[u8]) -> Result<Rid, ReadError>
    ensures { Reads (λ x. x) result bytes.new.now (number_at w32 bytes.old.now) }
{
    let number = take_u32(bytes)?;
    Ok(Rid::new(number))
}

/// An action's number.
pub fn take_action(bytes: &mut &[u8]) -> Result<ActionNo, ReadError>
    ensures { Reads (λ x. x) result bytes.new.now (number_at w64 bytes.old.now) }
{
    let number = take_u64(bytes)?;
    Ok(ActionNo::new(number))
}

/// A handle, of any number.
pub fn take_handle(bytes: &mut &[u8]) -> Result<Handle, ReadError>
    ensures { Reads (λ x. x) result bytes.new.now (byte_at bytes.old.now) }
{
    let number = take_u8(bytes)?;
    Ok(Handle::new(number))
}

/// A mutator, of any number.
pub fn take_mutator(bytes: &mut &[u8]) -> Result<Mutator, ReadError>
    ensures { Reads (λ x. x) result bytes.new.now (byte_at bytes.old.now) }
{
    let number = take_u8(bytes)?;
    Ok(Mutator::new(number))
}

/// A slot or none.
pub fn take_option(bytes: &mut &[u8]) -> Result<Option<Slot>, ReadError>
    ensures { Reads (λ x. x) result bytes.new.now (option_at bytes.old.now) }
{
    match slot_option_at(bytes) {
        Ok((value, rest)) => {
            *bytes = rest;
            Ok(value)
        }
        Err(error) => Err(error),
    }
}

/// A text of 0 to 200 bytes.
pub fn take_data(alloc: Global, bytes: &mut &[u8]) -> Result<Data, ReadError>
    ensures { Reads (λ x. x) result bytes.new.now (bytes_at 0 200 bytes.old.now) }
{
    match data_at(alloc, bytes) {
        Ok((value, rest)) => {
            *bytes = rest;
            Ok(value)
        }
        Err(error) => Err(error),
    }
}

/// A text of 1 to 32 bytes, each a small letter, a digit or an underscore.
pub fn take_name(bytes: &mut &[u8]) -> Result<Name, ReadError>
    ensures { Reads (λ x. x) result bytes.new.now (text_at 1 32 is_name_byte bytes.old.now) }
{
    match name_at(bytes) {
        Ok((value, rest)) => {
            *bytes = rest;
            Ok(value)
        }
        Err(error) => Err(error),
    }
}

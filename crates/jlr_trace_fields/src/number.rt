//! Numbers, and what is spelled as one number.
ghost use Rattle.std.specs.Prelude.{◌≡◌, ◌≤◌, ◌++◌, IfOk, OnOk};
ghost use Rattle.std.specs.Int.{w16, w32, w64};
ghost use Rattle.jlr_trace_fields.specs.Spelling.{spelled_8, spelled_16, spelled_32, spelled_64, spelled_signed};
ghost use Rattle.jlr_trace_fields.specs.Spelling.{spelled_flag, spelled_option};
ghost use Rattle.jlr_trace_fields.specs.Reading.{Gives, byte_at, number_at, number_within_at, signed_at};
ghost use Rattle.jlr_trace_fields.specs.Reading.{byte_within_at};
ghost use Rattle.jlr_trace_fields.specs.Reading.{flag_at, option_at, picked_at};

use crate::fault::{Fault, ReadError};
use jlr_types::Slot;
use std::alloc::AllocError;

/// The number that stands for no slot.
const NO_SLOT: u32 = u32::MAX;

/// The first byte.
pub(crate) fn u8_at(bytes: &[u8]) -> Result<(u8, &[u8]), ReadError>
    ensures { Gives (λ x. (x.0, x.1.now)) result (byte_at bytes.now) }
{
    match bytes {
        [] => Err(ReadError::Fault(Fault::Short)),
        [first, rest @ ..] => Ok((*first, rest)),
    }
}

/// A number of two bytes.
pub(crate) fn u16_at(bytes: &[u8]) -> Result<(u16, &[u8]), ReadError>
    ensures { Gives (λ x. (x.0, x.1.now)) result (number_at w16 bytes.now) }
{
    if bytes.len() < 2 {
        return Err(ReadError::Fault(Fault::Short));
    }
    let (front, rest) = bytes.split_at(2);
    Ok((u16::from_be_bytes([front[0], front[1]]), rest))
}

/// A number of four bytes.
pub(crate) fn u32_at(bytes: &[u8]) -> Result<(u32, &[u8]), ReadError>
    ensures { Gives (λ x. (x.0, x.1.now)) result (number_at w32 bytes.now) }
{
    if bytes.len() < 4 {
        return Err(ReadError::Fault(Fault::Short));
    }
    let (front, rest) = bytes.split_at(4);
    let number = u32::from_be_bytes([front[0], front[1], front[2], front[3]]);
    Ok((number, rest))
}

/// A number of eight bytes.
pub(crate) fn u64_at(bytes: &[u8]) -> Result<(u64, &[u8]), ReadError>
    ensures { Gives (λ x. (x.0, x.1.now)) result (number_at w64 bytes.now) }
{
    if bytes.len() < 8 {
        return Err(ReadError::Fault(Fault::Short));
    }
    let (front, rest) = bytes.split_at(8);
    let number = u64::from_be_bytes([
        front[0], front[1], front[2], front[3], front[4], front[5], front[6], front[7],
    ]);
    Ok((number, rest))
}

/// A signed number of eight bytes.
#[tactic(auto, unfolding(crate::specs::Reading::signed_at))]
pub(crate) fn i64_at(bytes: &[u8]) -> Result<(i64, &[u8]), ReadError>
    ensures { Gives (λ x. (x.0, x.1.now)) result (signed_at bytes.now) }
{
    let (number, rest) = u64_at(bytes)?;
    Ok((number.cast_signed(), rest))
}

/// A byte from low to high.
#[tactic(auto, unfolding(crate::specs::Reading::byte_within_at))]
pub(crate) fn byte_within(low: u8, high: u8, bytes: &[u8]) -> Result<(u8, &[u8]), ReadError>
    ensures gives { Gives (λ x. (x.0, x.1.now)) result (byte_within_at low high bytes.now) }
    ensures within { IfOk result (λ x. (low ≤ x.0) × (x.0 ≤ high)) }
{
    let (byte, rest) = u8_at(bytes)?;
    if byte < low || high < byte {
        return Err(ReadError::Fault(Fault::Range));
    }
    Ok((byte, rest))
}

/// A number of two bytes, from low to high.
#[tactic(auto, unfolding(crate::specs::Reading::number_within_at))]
pub(crate) fn u16_within(low: u16, high: u16, bytes: &[u8]) -> Result<(u16, &[u8]), ReadError>
    ensures gives { Gives (λ x. (x.0, x.1.now)) result (number_within_at w16 low high bytes.now) }
    ensures within { IfOk result (λ x. (low ≤ x.0) × (x.0 ≤ high)) }
{
    let (number, rest) = u16_at(bytes)?;
    if number < low || high < number {
        return Err(ReadError::Fault(Fault::Range));
    }
    Ok((number, rest))
}

/// A byte 0 for no, 1 for yes.
#[tactic(auto, unfolding(crate::specs::Reading::flag_at))]
pub(crate) fn bool_at(bytes: &[u8]) -> Result<(bool, &[u8]), ReadError>
    ensures { Gives (λ x. (x.0, x.1.now)) result (flag_at bytes.now) }
{
    let (byte, rest) = byte_within(0, 1, bytes)?;
    Ok((byte == 1, rest))
}

/// A slot or none.
#[tactic(auto, unfolding(crate::specs::Reading::option_at))]
pub(crate) fn slot_option_at(bytes: &[u8]) -> Result<(Option<Slot>, &[u8]), ReadError>
    ensures { Gives (λ x. (x.0, x.1.now)) result (option_at bytes.now) }
{
    let (number, rest) = u32_at(bytes)?;
    if number == NO_SLOT {
        return Ok((None, rest));
    }
    Ok((Some(Slot::new(number)), rest))
}

/// One of the values of a table, named by its place, counted from a first number.
#[tactic(auto, unfolding(crate::specs::Reading::picked_at))]
pub(crate) fn picked<'a, T: Copy>(
    first: u8,
    table: &[T],
    bytes: &'a [u8],
) -> Result<(T, &'a [u8]), ReadError>
    ensures { Gives (λ x. (x.0, x.1.now)) result (picked_at first table.now bytes.now) }
{
    let (byte, rest) = u8_at(bytes)?;
    if byte < first {
        return Err(ReadError::Fault(Fault::Range));
    }
    match table.get((byte - first) as usize) {
        Some(value) => Ok((*value, rest)),
        None => Err(ReadError::Fault(Fault::Range)),
    }
}

/// Writes a byte.
pub fn put_u8(out: &mut Vec<u8>, number: u8) -> Result<(), AllocError>
    ensures { OnOk result (out.new.items ≡ out.old.items ++ spelled_8 number) }
{
    out.push(number)?;
    Ok(())
}

/// Writes a byte 0 for no, 1 for yes.
pub fn put_flag(out: &mut Vec<u8>, flag: bool) -> Result<(), AllocError>
    ensures { OnOk result (out.new.items ≡ out.old.items ++ spelled_flag flag) }
{
    match flag {
        false => put_u8(out, 0),
        true => put_u8(out, 1),
    }
}

/// Writes a number of two bytes.
pub fn put_u16(out: &mut Vec<u8>, number: u16) -> Result<(), AllocError>
    ensures { OnOk result (out.new.items ≡ out.old.items ++ spelled_16 number) }
{
    out.extend_from_slice(&number.to_be_bytes())?;
    Ok(())
}

/// Writes a number of four bytes.
pub fn put_u32(out: &mut Vec<u8>, number: u32) -> Result<(), AllocError>
    ensures { OnOk result (out.new.items ≡ out.old.items ++ spelled_32 number) }
{
    out.extend_from_slice(&number.to_be_bytes())?;
    Ok(())
}

/// Writes a number of eight bytes.
pub fn put_u64(out: &mut Vec<u8>, number: u64) -> Result<(), AllocError>
    ensures { OnOk result (out.new.items ≡ out.old.items ++ spelled_64 number) }
{
    out.extend_from_slice(&number.to_be_bytes())?;
    Ok(())
}

/// Writes a signed number of eight bytes.
pub fn put_i64(out: &mut Vec<u8>, number: i64) -> Result<(), AllocError>
    ensures { OnOk result (out.new.items ≡ out.old.items ++ spelled_signed number) }
{
    out.extend_from_slice(&number.to_be_bytes())?;
    Ok(())
}

/// Writes a slot.
pub fn put_slot(out: &mut Vec<u8>, slot: Slot) -> Result<(), AllocError>
    ensures { OnOk result (out.new.items ≡ out.old.items ++ spelled_32 slot) }
{
    put_u32(out, slot.number())
}

/// Writes a slot or none.
pub fn put_option(out: &mut Vec<u8>, slot: Option<Slot>) -> Result<(), AllocError>
    ensures { OnOk result (out.new.items ≡ out.old.items ++ spelled_option slot) }
{
    match slot {
        Some(slot) => put_slot(out, slot),
        None => put_u32(out, NO_SLOT),
    }
}

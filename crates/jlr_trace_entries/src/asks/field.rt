//! Numbers of fields, and how many elements an array has.
ghost use Rattle.std.specs.Prelude.{◌≡◌, ◌++◌, OnOk};
ghost use Rattle.std.specs.Int.{w16};
ghost use Rattle.jlr_trace_fields.specs.Spelling.{spelled_16};
ghost use Rattle.jlr_trace_fields.specs.Reading.{Reads, number_within_at};
ghost use Rattle.jlr_trace_entries.specs.Asks.{field_read, spelled_field, FieldFits};

use jlr_trace_fields::cursor::{take_u8, take_u16_within};
use jlr_trace_fields::fault::ReadError;
use jlr_trace_fields::number::{put_u8, put_u16};
use jlr_trace_fields::version::Version;
use jlr_types::{FieldNo, Length};
use std::alloc::AllocError;

/// The number of a field.
pub(crate) fn field_at(version: Version, bytes: &mut &[u8]) -> Result<FieldNo, ReadError>
    ensures { Reads (λ x. x) result bytes.new.now (field_read version bytes.old.now) }
{
    let number = match version {
        Version::One => u16::from(take_u8(bytes)?),
        Version::Two => take_u16_within(0, 4_095, bytes)?,
    };
    Ok(FieldNo::new(number).unwrap())
}

/// Writes the number of a field.
pub(crate) fn put_field(
    out: &mut Vec<u8>,
    version: Version,
    field: FieldNo,
) -> Result<(), AllocError>
    requires { FieldFits version field }
    ensures { OnOk result (out.new.items ≡ out.old.items ++ spelled_field version field) }
{
    match version {
        Version::One => put_u8(out, field.number() as u8),
        Version::Two => put_u16(out, field.number()),
    }
}

/// How many elements an array has.
pub(crate) fn length_at(bytes: &mut &[u8]) -> Result<Length, ReadError>
    ensures { Reads (λ x. x) result bytes.new.now (number_within_at w16 1 4096 bytes.old.now) }
{
    let number = take_u16_within(1, 4_096, bytes)?;
    Ok(Length::new(number).unwrap())
}

/// Writes how many elements an array has.
pub(crate) fn put_length(out: &mut Vec<u8>, length: Length) -> Result<(), AllocError>
    ensures { OnOk result (out.new.items ≡ out.old.items ++ spelled_16 length) }
{
    put_u16(out, length.number())
}

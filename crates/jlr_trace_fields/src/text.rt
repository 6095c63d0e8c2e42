//! Texts: a byte of length, and that many bytes.
ghost use Rattle.std.specs.Prelude.{◌≡◌, ◌≤◌, ◌<◌, ◌++◌, take, length, IsTrue, OnOk};
ghost use Rattle.std.specs.List.{list_all};
ghost use Rattle.jlr_trace_fields.specs.Spelling.{spelled_text, IsWithin};
ghost use Rattle.jlr_trace_fields.specs.Reading.{Gives, taken_at, bytes_at, text_at};
ghost use Rattle.jlr_machine.specs.Names.{is_name_byte};

use crate::fault::{Fault, ReadError};
use crate::number::byte_within;
use jlr_machine::data::Data;
use jlr_machine::text::Name;
use std::alloc::{AllocError, Global};

fn is_good(byte: u8) -> bool
    ensures { result ≡ is_name_byte byte }
{
    byte.is_ascii_lowercase() || byte.is_ascii_digit() || byte == b'_'
}

fn all_good(bytes: &[u8]) -> bool
    ensures { result ≡ list_all is_name_byte bytes.now }
{
    bytes.iter().all(|&byte| is_good(byte))
}

/// So many bytes, or those that there are.
fn front(bytes: &[u8], count: usize) -> &[u8]
    ensures { result.now ≡ take count bytes.now }
{
    if bytes.len() < count {
        bytes
    } else {
        &bytes[..count]
    }
}

#[tactic(auto, unfolding(crate::specs::Reading::taken_at))]
fn taken(alloc: Global, bytes: &[u8], count: usize) -> Result<(Data, &[u8]), ReadError>
    requires { count ≤ 200 }
    ensures { Gives (λ x. (x.0, x.1.now)) result (taken_at count bytes.now) }
{
    if bytes.len() < count {
        return Err(ReadError::Fault(Fault::Short));
    }
    let (text, rest) = bytes.split_at(count);
    let data = Data::from_slice(alloc, text)?;
    Ok((data.unwrap(), rest))
}

/// What one call read: at most 200 bytes.
#[tactic(auto, unfolding(crate::specs::Reading::bytes_at))]
pub(crate) fn data_at(alloc: Global, bytes: &[u8]) -> Result<(Data, &[u8]), ReadError>
    ensures { Gives (λ x. (x.0, x.1.now)) result (bytes_at 0 200 bytes.now) }
{
    let (count, rest) = byte_within(0, 200, bytes)?;
    taken(alloc, rest, count as usize)
}

/// So many bytes, which are a name where there are so many.
#[tactic(auto, unfolding(crate::specs::Reading::taken_at))]
fn named(bytes: &[u8], count: usize) -> Result<(Name, &[u8]), ReadError>
    requires within { IsWithin 1 32 count }
    requires good { IsTrue (list_all is_name_byte (take count bytes.now)) }
    ensures { Gives (λ x. (x.0, x.1.now)) result (taken_at count bytes.now) }
{
    if bytes.len() < count {
        return Err(ReadError::Fault(Fault::Short));
    }
    let (text, rest) = bytes.split_at(count);
    Ok((Name::from_slice(text).unwrap(), rest))
}

/// A name. A wrong byte is met before the end of the bytes.
#[tactic(auto, unfolding(crate::specs::Reading::text_at))]
pub(crate) fn name_at(bytes: &[u8]) -> Result<(Name, &[u8]), ReadError>
    ensures { Gives (λ x. (x.0, x.1.now)) result (text_at 1 32 is_name_byte bytes.now) }
{
    let (count, rest) = byte_within(1, 32, bytes)?;
    let count = count as usize;
    if !all_good(front(rest, count)) {
        return Err(ReadError::Fault(Fault::Range));
    }
    named(rest, count)
}

/// Writes a text of at most 255 bytes.
pub fn put_text(out: &mut Vec<u8>, text: &[u8]) -> Result<(), AllocError>
    requires { length text.now < 256 }
    ensures { OnOk result (out.new.items ≡ out.old.items ++ spelled_text text.now) }
{
    out.push(text.len() as u8)?;
    out.extend_from_slice(text)?;
    Ok(())
}

//! The words of a line that are no numbers: modes, names and bytes in hexadecimal digits.
ghost use Rattle.std.specs.Prelude.{◌≡◌};
ghost use Rattle.jlr_wire.specs.Fields.{mode_of, name_of, data_of};

use jlr_device::Mode;
use jlr_machine::text::{CallBytes, Name};
use std::marker::Model;

/// The most bytes of a write.
const DATA_LIMIT: usize = 200;

/// What a file is opened for: `r` or `w`.
#[tactic(auto, unfolding(crate::specs::Fields::mode_of))]
pub fn mode(text: &[u8]) -> Option<Mode>
    ensures { result ≡ mode_of text.now }
{
    if text == b"r".as_slice() {
        return Some(Mode::Read);
    }
    if text == b"w".as_slice() {
        return Some(Mode::Write);
    }
    None
}

/// The name of an object: 1 to 32 small letters, digits and underscores.
#[tactic(auto, unfolding(crate::specs::Fields::word_of))]
pub fn name(text: &[u8]) -> Option<Name>
    ensures { result ≡ name_of text.now }
{
    Name::from_slice(text)
}

/// The hexadecimal digits of 1 to 200 bytes, where they stand in their line. Contracts see the bytes.
#[derive(Drop)]
pub struct Digits<'a> {
    text: &'a [u8],
}

impl<'a> Model for Digits<'a> {
    ghost use Rattle.std.specs.Prelude.{List, ℕ, ◌≡◌, Some};
    ghost use Rattle.jlr_wire.specs.Fields.{bytes_of, data_of};

    ghost Value = { List ℕ };

    ghost view = { λ d. bytes_of d.text.now };

    ghost invariant = { λ d. data_of d.text.now ≡ Some (bytes_of d.text.now) };
}

impl<'a> Digits<'a> {
    /// The digits, or `None` where they are none of 1 to 200 bytes.
    pub(crate) fn parse(text: &'a [u8]) -> Option<Digits<'a>>
        ensures { result ≡ data_of text.now }
    {
        data(text)?;
        Some(Digits { text })
    }

    /// The bytes that they spell.
    pub fn decode(&self) -> CallBytes
        ensures { result ≡ self.now }
    {
        data(self.text).unwrap()
    }
}

/// The 1 to 200 bytes that these hexadecimal digits spell.
#[inline(never)]
#[tactic(auto, unfolding(crate::specs::Fields::data_of))]
fn data(digits: &[u8]) -> Option<CallBytes>
    ensures { result ≡ data_of digits.now }
{
    let count = digits.len() / 2;
    if count == 0 || count > DATA_LIMIT {
        return None;
    }
    let mut room = [0u8; DATA_LIMIT];
    let bytes = &mut room[..count];
    hex::decode_to_slice(digits, bytes).ok()?;
    CallBytes::from_slice(bytes)
}

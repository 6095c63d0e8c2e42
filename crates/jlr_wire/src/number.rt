//! The decimal numbers of a line.
ghost use Rattle.std.specs.Prelude.{ℕ, ◌≡◌, ◌<◌, ◌^◌, IfSome, IfNone, decimal};
ghost use Rattle.jlr_wire.specs.Fields.{byte_of, field_of, note_of};
ghost use Rattle.jlr_wire.specs.Reading.{count_of, length_of};

use itoa::Buffer;
use jlr_types::{FieldNo, Length};

/// The most bytes of a read.
const COUNT_LIMIT: u8 = 200;

/// The number from 0 to 255 that the text spells in decimal without a leading zero, or `None`.
pub fn number(text: &[u8]) -> Option<u8>
    ensures { result ≡ byte_of text.now }
{
    let number = note(text)?;
    u8::try_from(number).ok()
}

/// The number from 1 to 200 that the text spells in decimal without a leading zero, or `None`.
pub fn count(text: &[u8]) -> Option<u8>
    ensures { result ≡ count_of text.now }
{
    let count = number(text)?;
    if (1..=COUNT_LIMIT).contains(&count) {
        return Some(count);
    }
    None
}

/// The number of a field, 0 to 4,095, that the text spells in decimal without a leading zero, or `None`.
#[tactic(auto, using(crate::proofs::Numbers::none_below, crate::proofs::Numbers::some_below, crate::proofs::Numbers::above_none))]
pub fn field(text: &[u8]) -> Option<FieldNo>
    ensures { result ≡ field_of text.now }
{
    let number = note(text)?;
    if number >= 4096 {
        return None;
    }
    FieldNo::new(number as u16)
}

/// How many elements, 1 to 4,096, the text spells in decimal without a leading zero, or `None`.
#[tactic(auto, using(crate::proofs::Numbers::none_below, crate::proofs::Numbers::some_below, crate::proofs::Numbers::above_none))]
pub fn length(text: &[u8]) -> Option<Length>
    ensures { result ≡ length_of text.now }
{
    let number = note(text)?;
    if number >= 4097 {
        return None;
    }
    Length::new(number as u16)
}

/// The number from 0 to 4,294,967,295 that the text spells in decimal without a leading zero, or `None`.
#[inline(always)]
pub fn note(text: &[u8]) -> Option<u32>
    ensures { result ≡ note_of text.now }
{
    if let Some(n) = short_number(text) {
        return Some(n);
    }
    parse_number(text)
}

/// The number of one digit or of two that this text spells, or `None`. Most numbers of a session are such.
#[inline(always)]
fn short_number(text: &[u8]) -> Option<u32>
    ensures { IfSome result (λ n. text.now ≡ decimal n) }
{
    match text {
        [ones] if ones.is_ascii_digit() => Some(u32::from(*ones - b'0')),
        [tens, ones] if tens.is_ascii_digit() && *tens != b'0' && ones.is_ascii_digit() => {
            Some(10 * u32::from(*tens - b'0') + u32::from(*ones - b'0'))
        }
        _ => None,
    }
}

/// The number from 0 to 4,294,967,295 whose decimal text this is, or `None`.
#[inline(never)]
fn parse_number(text: &[u8]) -> Option<u32>
    ensures found { IfSome result (λ n. text.now ≡ decimal n) }
    ensures none { IfNone result ((n : ℕ) → n < 2 ^ 32 → text.now ≡ decimal n → ⊥) }
{
    let Ok(digits) = str::from_utf8(text) else {
        return None;
    };
    let Ok(n) = digits.parse::<u32>() else {
        return None;
    };
    let mut buffer = Buffer::new();
    // A leading zero or a sign is gone in the text that is written back.
    if buffer.format(n).as_bytes() == text {
        Some(n)
    } else {
        None
    }
}

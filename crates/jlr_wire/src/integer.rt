//! The signed integers of a line.
ghost use Rattle.std.specs.Prelude.{ℤ, ◌≡◌, IfSome, IfNone, FitsSigned};
ghost use Rattle.std.specs.Int.{w64};
ghost use Rattle.std.specs.Fmt.{signed_decimal};
ghost use Rattle.jlr_wire.specs.Fields.{integer_of};

use itoa::Buffer;

/// The integer of 64 bits that the text spells in decimal without a leading zero, with a `-` where it
/// is negative, or `None`.
pub fn integer(text: &[u8]) -> Option<i64>
    ensures { result ≡ integer_of text.now }
{
    parse_integer(text)
}

/// The integer of 64 bits whose decimal text this is, or `None`.
fn parse_integer(text: &[u8]) -> Option<i64>
    ensures found { IfSome result (λ n. text.now ≡ signed_decimal n) }
    ensures none { IfNone result ((n : ℤ) → FitsSigned w64 n → text.now ≡ signed_decimal n → ⊥) }
{
    let Ok(digits) = str::from_utf8(text) else {
        return None;
    };
    let Ok(n) = digits.parse::<i64>() else {
        return None;
    };
    let mut buffer = Buffer::new();
    // A leading zero, a `+` or the sign of `-0` is gone in the text that is written back.
    if buffer.format(n).as_bytes() == text {
        Some(n)
    } else {
        None
    }
}
